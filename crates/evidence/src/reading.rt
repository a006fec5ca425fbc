// Reading an evidence file: 2, 3; the header; the records; the trailer; 6; 7; 22.
ghost use Rattle.std.specs.Prelude.{◌≡◌, ℕ, ◌+◌, ◌≤◌, ◌<◌, length, get_or};
ghost use Rattle.answers.specs.Answers.{◌then◌};
ghost use Rattle.answers.specs.Refusing.{answer_of};
ghost use Rattle.kinds.specs.Kinds.{limit};
ghost use Rattle.evidence_units.specs.Units.{items, said_at};
ghost use Rattle.evidence.specs.Blocks.{blocks_in, records_in};
ghost use Rattle.evidence.specs.Judged.{byte_of, unit_byte, trailer_told};
ghost use Rattle.evidence.specs.Stopping.{looked_by};
ghost use Rattle.evidence.specs.Reading.{is_whole, size_told, counts_told, keys_told, signed_told, read_of, looked_at, places_of};

use crate::blocks::BLOCK;
use crate::stopping::Stopped;
use crate::totals::KEY;
use crate::{blocks, judged, totals};
use answers::refusing::Refusal;
use evidence_units::framing;
use keys::keyed::Keys;
use kinds::of_files::LIMIT;

#[tactic(auto, unfolding(crate::specs::Reading::is_whole))]
fn is_whole(file: &[u8]) -> bool
    ensures { result ≡ is_whole file.now }
{
    file.len() % BLOCK == 0 && 2 <= blocks::count(file)
}

#[tactic(auto, unfolding(crate::specs::Reading::size_told))]
fn size_tells(file: &[u8]) -> Result<(), Refusal>
    ensures { answer_of result ≡ size_told file.now }
{
    if !is_whole(file) {
        return Err(Refusal::Length);
    }
    if blocks::MOST + 2 < blocks::count(file) {
        return Err(Refusal::TooMany);
    }
    Ok(())
}

// Where the unit of a record begins: item 6.
const UNIT: usize = 45;

// The trailer, the counts, the keys, the frames.
fn rest_tells<'a>(file: &'a [u8], places: &'a [u32], n: usize) -> Result<(), Refusal>
    requires bound { 2 ≤ blocks_in file.now }
    requires n_le_limit { n ≤ limit }
    requires n_value { n ≡ records_in file.now }
    requires by_index { (i : ℕ) → i < n → get_or places.now i 0 ≡ byte_of file.now i }
    requires by_index_2 { (i : ℕ) → i < n → byte_of file.now i + 1024 ≤ length file.now }
    requires n_in_bounds { n ≤ length places.now }
    requires by_index_3 { (i : ℕ) → i < n → unit_byte file.now i + (items + said_at file.now (unit_byte file.now i)) ≤ length file.now }
    ensures { answer_of result ≡ (trailer_told file.now then (counts_told file.now then (keys_told file.now then signed_told file.now))) }
{
    judged::trailer_tells(file, n)?;
    totals::counts_tell(file, n)?;
    totals::keys_tell(Keys {
        s: file,
        places,
        spacing: KEY,
        n,
    })?;
    framing::frames_tell(file, places, UNIT, n)
}

// Reads any bytes, says how many records there are, or how many are good before a refusal, and leaves the first byte of each
// good one in the places.
pub fn look(exempt: bool, file: &[u8], places: &mut [u32]) -> Result<usize, Stopped>
    requires { length places.old ≡ limit }
    ensures value { looked_by result ≡ looked_at exempt file.now }
    ensures places_after { places.new ≡ places_of exempt file.now places.old }
{
    size_tells(file)?;
    judged::header_tells(file)?;
    let count = judged::records_tell(exempt, file, places)?;
    match rest_tells(file, places, count) {
        Ok(()) => Ok(count),
        Err(refusal) => Err(Stopped {
            refusal,
            good: count,
        }),
    }
}

// Reads any bytes as an evidence file.
pub fn read(exempt: bool, file: &[u8]) -> Result<(), Refusal>
    ensures { answer_of result ≡ read_of exempt file.now }
{
    let mut places = [0u32; LIMIT];
    look(exempt, file, &mut places)?;
    Ok(())
}
