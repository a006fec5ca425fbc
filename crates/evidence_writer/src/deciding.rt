// Everything but the room: 2; the header; unit after unit; 7; 22.
ghost use Rattle.std.specs.Prelude.{◌≡◌, ℕ, IfOk, ◌+◌, ◌≤◌, ◌<◌, length, get_or};
ghost use Rattle.answers.specs.Answers.{◌then◌};
ghost use Rattle.answers.specs.Refusing.{answer_of};
ghost use Rattle.kinds.specs.Kinds.{limit};
ghost use Rattle.evidence_units.specs.Units.{items};
ghost use Rattle.evidence_builder.specs.Units.{place_of, said_by, units_in, blocks_to};
ghost use Rattle.evidence_writer.specs.Writing.{parts_told, header_told, records_told, keys_told, signed_told, decided};

use crate::against::Against;
use crate::units_tell;
use crate::units_tell::Judged;
use answers::refusing::Refusal;
use evidence::{blocks, totals};
use evidence_builder::{files, units};
use evidence_rows::by_role;
use evidence_rows::by_role::NO_OWN;
use evidence_units::framing;
use keys::keyed::Keys;
use keys::stands::Spacing;
use kinds::of_files::LIMIT;
use layout::judging;

// Items 6 to 9, with which a unit begins.
const KEY: Spacing = Spacing {
    stride: 0,
    offset: 0,
    size: 61,
};

#[tactic(auto, unfolding(crate::specs::Writing::parts_told))]
fn parts_tell(date: &[u8], code: &[u8]) -> Result<(), Refusal>
    ensures { answer_of result ≡ parts_told date.now code.now }
{
    if date.len() != 8 || code.len() != 10 {
        return Err(Refusal::Length);
    }
    Ok(())
}

fn header_tells(header: &[u8]) -> Result<(), Refusal>
    requires { length header.now ≡ 1024 }
    ensures { answer_of result ≡ header_told header.now }
{
    judging::judge_rows(by_role::header_rows(), NO_OWN, header, header, 0)
}

// The keys, then the frames.
fn rest_tells<'a>(x: &'a [u8], places: &'a [u32], n: usize) -> Result<(), Refusal>
    requires n_le_limit { n ≤ limit }
    requires n_in_bounds { n ≤ length places.now }
    requires n_value { n ≡ units_in x.now }
    requires by_index { (i : ℕ) → i < n → get_or places.now i 0 ≡ place_of x.now i }
    requires by_index_2 { (i : ℕ) → i < n → place_of x.now i + (items + said_by x.now i) ≤ length x.now }
    ensures { answer_of result ≡ (keys_told x.now then signed_told x.now) }
{
    totals::keys_tell(Keys {
        s: x,
        places,
        spacing: KEY,
        n,
    })?;
    framing::frames_tell(x, places, 0, n)
}

// Unit after unit against the header, then their keys and frames.
fn decide_units(by: Against, x: &[u8]) -> Result<Judged, Refusal>
    ensures answer_value { answer_of result ≡ (records_told by.entry.exempt by.entry.header.now by.entry.code.now x.now then (keys_told x.now then signed_told x.now)) }
    ensures count_value { IfOk result (λ u. u.count ≡ units_in x.now) }
    ensures blocks_value { IfOk result (λ u. u.blocks ≡ blocks_to x.now (units_in x.now)) }
{
    let mut places = [0u32; LIMIT];
    let judged = units_tell::units_tell(by, x, &mut places)?;
    rest_tells(x, &places, judged.count)?;
    Ok(judged)
}

// Everything but the room; the header stands in a block of its own while the units are judged against it.
pub(crate) fn decide(exempt: bool, date: &[u8], code: &[u8], x: &[u8]) -> Result<Judged, Refusal>
    ensures answer_value { answer_of result ≡ decided exempt date.now code.now x.now }
    ensures count_value { IfOk result (λ u. u.count ≡ units_in x.now) }
    ensures blocks_value { IfOk result (λ u. u.blocks ≡ blocks_to x.now (units_in x.now)) }
{
    parts_tell(date, code)?;
    let mut header = [0u8; blocks::BLOCK];
    files::put_header(&mut header, date, code, units::count(x));
    header_tells(&header)?;
    let by = Against {
        exempt,
        header: &header,
        code,
    };
    decide_units(by, x)
}
