// What is told of each unit that a writer is given, in the order of the units.
ghost use Rattle.std.specs.Prelude.{◌≡◌, IfOk, ◌++◌, ◌+◌, ◌≤◌, length, drop};
ghost use Rattle.laws.specs.Tabulate.{tabulate};
ghost use Rattle.answers.specs.Refusing.{answer_of};
ghost use Rattle.kinds.specs.Kinds.{limit};
ghost use Rattle.evidence.specs.Blocks.{most_blocks};
ghost use Rattle.evidence_builder.specs.Units.{place_of, blocks_to};
ghost use Rattle.evidence_writer.specs.Writing.{items_told, length_told, evidence_told, unit_told, records_told, good_to};

use crate::against::Against;
use answers::refusing::Refusal;
use evidence::{blocks, lengths};
use evidence_builder::files;
use evidence_rows::by_role;
use evidence_rows::by_role::NO_OWN;
use evidence_units::items;
use evidence_units::items::ITEMS;
use kinds::of_files::LIMIT;
use layout::judging;
use text::parts;

// How many units there are, and how many blocks they take.
#[derive(Clone, Copy)]
pub(crate) struct Judged {
    pub(crate) count: usize,
    pub(crate) blocks: usize,
}

// Items 6 to 12 of the unit at place p, as those of record n.
fn items_tell(by: Against, x: &[u8], p: usize, n: usize) -> Result<(), Refusal>
    requires { p + 74 ≤ length x.now }
    ensures { answer_of result ≡ items_told by.entry.exempt by.entry.header.now by.entry.code.now x.now p n }
{
    let mut front = [0u8; blocks::FRONT];
    files::put_front(&mut front, 0, by.code, n);
    parts::put(&mut front, 45, parts::part(x, p, ITEMS));
    judging::judge_rows(
        by_role::data_rows(by.exempt),
        NO_OWN,
        &front,
        by.header,
        n as u64,
    )
}

// Its length.
#[tactic(auto, unfolding(crate::specs::Writing::length_told, evidence_units::specs::Units::sort_at))]
fn length_tells(exempt: bool, x: &[u8], p: usize, n: u64) -> Result<(), Refusal>
    requires { p + 74 ≤ length x.now }
    ensures { answer_of result ≡ length_told exempt x.now p n }
{
    if !lengths::length_good(exempt, parts::byte(x, p + 61), items::said(x, p)) {
        return Err(Refusal::Broken(n, 12, lengths::C0103));
    }
    Ok(())
}

// Its evidence, behind b blocks.
#[tactic(auto, unfolding(crate::specs::Writing::evidence_told, evidence::specs::Blocks::blocks_for))]
fn evidence_tells(x: &[u8], p: usize, b: usize) -> Result<(), Refusal>
    requires p_in_bounds { p + 74 ≤ length x.now }
    requires b_le_most_blocks { b ≤ most_blocks }
    ensures { answer_of result ≡ evidence_told x.now p b }
{
    let said = items::said(x, p);
    if x.len() - p < ITEMS + said {
        return Err(Refusal::Length);
    }
    if blocks::MOST < b + blocks::blocks_for(said) {
        return Err(Refusal::TooMany);
    }
    Ok(())
}

// The unit at place p, behind b blocks, as record n.
fn unit_tells(by: Against, x: &[u8], p: usize, b: usize, n: usize) -> Result<(), Refusal>
    requires p_in_bounds { p ≤ length x.now }
    requires b_le_most_blocks { b ≤ most_blocks }
    ensures { answer_of result ≡ unit_told by.entry.exempt by.entry.header.now by.entry.code.now x.now p b n }
{
    if x.len() - p < ITEMS {
        return Err(Refusal::Length);
    }
    items_tell(by, x, p, n)?;
    length_tells(by.exempt, x, p, n as u64)?;
    evidence_tells(x, p, b)
}

// Unit after unit; the places hold where each good one begins.
pub(crate) fn units_tell(by: Against, x: &[u8], places: &mut [u32]) -> Result<Judged, Refusal>
    requires { length places.old ≡ limit }
    ensures answer_value { answer_of result ≡ records_told by.entry.exempt by.entry.header.now by.entry.code.now x.now }
    ensures count_value { IfOk result (λ u. u.count ≡ good_to by.entry.exempt by.entry.header.now by.entry.code.now x.now) }
    ensures blocks_value { IfOk result (λ u. u.blocks ≡ blocks_to x.now (good_to by.entry.exempt by.entry.header.now by.entry.code.now x.now)) }
    ensures places_after { places.new ≡ tabulate (place_of x.now) (good_to by.entry.exempt by.entry.header.now by.entry.code.now x.now) ++ drop (good_to by.entry.exempt by.entry.header.now by.entry.code.now x.now) places.old }
{
    let mut p = 0;
    let mut b = 0;
    for i in 0..LIMIT {
        if x.len() <= p {
            return Ok(Judged {
                count: i,
                blocks: b,
            });
        }
        unit_tells(by, x, p, b, i + 1)?;
        let said = items::said(x, p);
        places[i] = p as u32;
        p += ITEMS + said;
        b += blocks::blocks_for(said);
    }
    if p < x.len() {
        return Err(Refusal::TooMany);
    }
    Ok(Judged {
        count: LIMIT,
        blocks: b,
    })
}
