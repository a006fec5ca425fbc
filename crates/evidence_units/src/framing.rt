// Signed evidence of units has the frame of a signed file.
ghost use Rattle.std.specs.Prelude.{◌≡◌, ℕ, ◌+◌, ◌≤◌, ◌<◌, length, get_or};
ghost use Rattle.answers.specs.Refusing.{answer_of};
ghost use Rattle.evidence_units.specs.Units.{items, said_at};
ghost use Rattle.evidence_units.specs.Frames.{frame_good, frame_told, frames_told};

use crate::items;
use crate::items::ITEMS;
use answers::refusing::Refusal;
use signed::frames;
use text::parts;

// Evidence of kind "2" that is there has the frame.
#[tactic(auto, unfolding(crate::specs::Frames::frame_good))]
fn frame_good(kind: u8, evidence: &[u8]) -> bool
    ensures { result ≡ frame_good kind evidence.now }
{
    kind != b'2' || evidence.is_empty() || frames::is_signed(evidence)
}

// What is told of the unit at place p, as that of record n.
#[tactic(auto, unfolding(crate::specs::Frames::frame_told, crate::specs::Units::sort_at, crate::specs::Units::evidence_at))]
fn frame_tells(x: &[u8], p: usize, n: u64) -> Result<(), Refusal>
    requires { p + (items + said_at x.now p) ≤ length x.now }
    ensures { answer_of result ≡ frame_told x.now p n }
{
    let evidence = parts::part(x, p + ITEMS, items::said(x, p));
    if !frame_good(parts::byte(x, p + 61), evidence) {
        return Err(Refusal::Unsigned(n));
    }
    Ok(())
}

// The first of n units that is refused; each begins an offset behind the place that the list gives it.
pub fn frames_tell(x: &[u8], places: &[u32], offset: usize, n: usize) -> Result<(), Refusal>
    requires n_in_bounds { n ≤ length places.now }
    requires by_index { (i : ℕ) → i < n → get_or places.now i 0 + offset + (items + said_at x.now (get_or places.now i 0 + offset)) ≤ length x.now }
    ensures { answer_of result ≡ frames_told x.now (λ (i : ℕ). get_or places.now i 0 + offset) n }
{
    for i in 0..n {
        frame_tells(x, places[i] as usize + offset, (i + 1) as u64)?;
    }
    Ok(())
}
