// The answers to the records of an EB11: yes, or one of the institution's codes.
#![tactic(auto, unfolding(crate::specs::Answers::our_codes, crate::specs::Answers::is_answer, crate::specs::Answers::is_no, crate::specs::Answers::apart), using(tables::proofs::Among::among_any))]

ghost use Rattle.std.specs.Prelude.{◌≡◌};
ghost use Rattle.tables.specs.Among.{is_among};
ghost use Rattle.answers.specs.Refusing.{answer_of};
ghost use Rattle.changes.specs.Answers.{our_codes, is_answer, apart, answers_told};

use answers::refusing::Refusal;

// A013, A016, A017 and A019.
const OURS: [u64; 4] = [0x4130_3133, 0x4130_3136, 0x4130_3137, 0x4130_3139];

// One of the institution's codes.
fn our_code(code: u64) -> bool
    ensures { result ≡ is_among our_codes code }
{
    OURS.contains(&code)
}

// Yes, or one of the codes.
fn is_answer(answer: u64) -> bool
    ensures { result ≡ is_answer answer }
{
    answer == 0 || our_code(answer)
}

// One is a yes and the other a no.
pub(crate) fn apart(a: u64, b: u64) -> bool
    ensures { result ≡ apart a b }
{
    (a == 0) != (b == 0)
}

// 51: not one answer for each of n records, or one that is no answer.
pub(crate) fn answers_tell(answers: &[u64], n: usize) -> Result<(), Refusal>
    ensures { answer_of result ≡ answers_told answers.now n }
{
    if answers.len() == n && answers.iter().all(|answer| is_answer(*answer)) {
        return Ok(());
    }
    Err(Refusal::Answers)
}
