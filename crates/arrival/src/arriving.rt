// A part goes into lent room behind those before it, and nothing is said of the file.
ghost use Rattle.std.specs.Prelude.{◌≡◌, ◌+◌, ◌-◌, length, take};
ghost use Rattle.laws.specs.Stored.{stored};
ghost use Rattle.answers.specs.Refusing.{answer_of};
ghost use Rattle.arrival.specs.Arriving.{part_told, answered, number_by, room_with, state_with};

use crate::counting::count_on;
use answers::refusing::Refusal;
use answers::told::Answer;
use text::parts;

// The second number of a state after the end.
pub(crate) const ENDED: u64 = 0xFFFF_FFFF_FFFF_FFFF;

// Stores what there is room for of a part behind the first `kept` bytes of the room, and says how many lie there then.
fn keep(room: &mut [u8], kept: usize, part: &[u8]) -> usize
    ensures value { result ≡ kept + length (take (length room.old - kept) part.now) }
    ensures room_after { room.new ≡ stored kept (take (length room.old - kept) part.now) room.old }
{
    let fits = part.len().min(room.len().saturating_sub(kept));
    if fits == 0 {
        return kept;
    }
    parts::put(room, kept, &part[..fits]);
    kept + fits
}

// Takes a part: `state` is 0 and 0 before the first, and the same room is lent for every part of a file.
// Kept: the C interface lends the state as two numbers.
pub fn part(state: &mut [u64; 2], room: &mut [u8], part: &[u8]) -> Result<(), Refusal>
    ensures value { answer_of result ≡ answered (part_told state.old) }
    ensures state_after { state.new ≡ state_with state.old (length room.old) part.now }
    ensures room_after { room.new ≡ room_with state.old room.old part.now }
{
    let [kept, past] = *state;
    if past == ENDED {
        return Err(Refusal::Ended);
    }
    let held = keep(room, kept as usize, part);
    let over = count_on(past as usize, part.len() - (held - kept as usize));
    *state = [held as u64, over as u64];
    Ok(())
}

// The number that a part is answered: 10, more may come, or the refusal's.
pub fn number(told: Result<(), Refusal>) -> u64
    ensures { result ≡ number_by told }
{
    match told {
        Ok(()) => 10,
        Err(refusal) => Answer::from(refusal).number,
    }
}
