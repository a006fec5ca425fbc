// What a word of a case says.
use numbers::base_ten;

// The number that a word of at most 19 digits says; * is the turn's.
pub(crate) fn number(word: &[u8], turn: usize) -> usize {
    if word.starts_with(b"*") {
        return turn;
    }
    if 19 < word.len() {
        return 0;
    }
    base_ten::number(word) as usize
}
