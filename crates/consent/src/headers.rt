// The two headers, and the evidence that an enrolment asks for.
ghost use Rattle.std.specs.Prelude.{◌≡◌, ◌≤◌, length};
ghost use Rattle.answers.specs.Refusing.{answer_of};
ghost use Rattle.consent.specs.Comparing.{long_date, asked_by, headers_told};

use answers::refusing::Refusal;
use text::parts;

// Years are 20YY.
fn long_date(date: &[u8]) -> [u8; 8]
    requires { length date.now ≡ 6 }
    ensures { result ≡ long_date date.now }
{
    let mut long = [b'2', b'0', b' ', b' ', b' ', b' ', b' ', b' '];
    parts::put(&mut long, 2, date);
    long
}

// The evidence that an enrolment asks for: payer, bank, account, date.
pub(crate) fn asked(rec: &[u8]) -> [u8; 61]
    requires { length rec.now ≡ 120 }
    ensures { result ≡ asked_by rec.now }
{
    let mut key = [b' '; 61];
    parts::put(&mut key, 0, parts::part(rec, 26, 20));
    parts::put(&mut key, 30, parts::part(rec, 46, 3));
    parts::put(&mut key, 33, parts::part(rec, 53, 16));
    let date = long_date(parts::part(rec, 19, 6));
    parts::put(&mut key, 53, &date);
    key
}

// 12: the institution codes, then the dates.
#[tactic(auto, using(laws::proofs::Positions::same_pointwise), unfolding(crate::specs::Comparing::headers_told))]
pub(crate) fn headers_tell(enrolments: &[u8], evidence: &[u8]) -> Result<(), Refusal>
    requires in_bounds { 120 ≤ length enrolments.now }
    requires in_bounds_2 { 1024 ≤ length evidence.now }
    ensures { answer_of result ≡ headers_told enrolments.now evidence.now }
{
    if parts::part(enrolments, 9, 10) != parts::part(evidence, 23, 10) {
        return Err(Refusal::Headers(3));
    }
    if long_date(parts::part(enrolments, 27, 6)).as_slice() != parts::part(evidence, 15, 8) {
        return Err(Refusal::Headers(5));
    }
    Ok(())
}
