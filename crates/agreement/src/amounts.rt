// Which amounts of a request and its result are possible.
ghost use Rattle.std.specs.Prelude.{◌≡◌, ◌≤◌, length};
ghost use Rattle.answers.specs.Refusing.{answer_of};
ghost use Rattle.agreement.specs.Amounts.{base_of, possible, part_of_one, debit_tells, amounts_tell};

use answers::refusing::Refusal;
use kinds::of_pairs::{Family, PairKind};
use layout::items;
use text::parts;

// The base of a type: of "0" the least amount that may be asked, of the others a thousand won for each step above type "1".
#[tactic(auto, unfolding(crate::specs::Amounts::base_of))]
fn base(least: u64, debit_type: u8) -> u64
    ensures { result ≡ base_of least debit_type }
{
    if debit_type == b'0' {
        return least;
    }
    debit_type.saturating_sub(b'1') as u64 * 1000
}

// Whether u won of a can be what was not taken.
#[tactic(auto, unfolding(crate::specs::Amounts::possible))]
fn possible(least: u64, debit_type: u8, mark: u8, a: u64, u: u64) -> bool
    ensures { result ≡ possible least debit_type mark a u }
{
    if mark == b'N' {
        return u == a;
    }
    u < a && base(least, debit_type) <= a - u
}

#[tactic(auto, unfolding(crate::specs::Amounts::part_of_one))]
fn part_of_one(mark: u8, debit_type: u8) -> bool
    ensures { result ≡ part_of_one mark debit_type }
{
    mark == b'P' && debit_type == b'1'
}

// "P" on type "1" first, then the amounts.
#[tactic(auto, unfolding(crate::specs::Amounts::debit_tells))]
fn debit_tells(least: u64, rec: u64, request: &[u8], res: &[u8]) -> Result<(), Refusal>
    requires in_bounds { 55 ≤ length request.now }
    requires in_bounds_2 { 55 ≤ length res.now }
    ensures { answer_of result ≡ debit_tells least rec request.now res.now }
{
    let mark = parts::byte(res, items::MARK);
    let debit_type = parts::byte(request, items::TYPE);
    if part_of_one(mark, debit_type) {
        return Err(Refusal::Amount(rec, 13));
    }
    let (asked, left) = (items::amount(request), items::amount(res));
    if !possible(least, debit_type, mark, asked, left) {
        return Err(Refusal::Amount(rec, 6));
    }
    Ok(())
}

// An enrolment has no amounts.
pub(crate) fn amounts_tell(
    pair: PairKind,
    rec: u64,
    request: &[u8],
    res: &[u8],
) -> Result<(), Refusal>
    requires in_bounds { 55 ≤ length request.now }
    requires in_bounds_2 { 55 ≤ length res.now }
    ensures { answer_of result ≡ amounts_tell pair rec request.now res.now }
{
    match pair.family {
        Family::Enrolment => Ok(()),
        Family::Debit => debit_tells(pair.request.least, rec, request, res),
    }
}
