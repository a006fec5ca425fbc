// A file in parts, and its end.
ghost use Rattle.std.specs.Prelude.{◌≡◌, length};
ghost use Rattle.arrival.specs.Arriving.{part_told, number_of, room_with, state_with};
ghost use Rattle.arrival.specs.Ending.{end_told, state_ended};
ghost use Rattle.telling.specs.Numbers.{five};

use answers::told::Answer;
use arrival::{arriving, ending};
use telling::answer::tell;

// Takes a part into the room, behind those before it. The state is 0 and 0 before the first part. Returns 10, which says
// nothing of the file; or 9 after the end, and nothing changes.
#[unsafe(no_mangle)]
pub extern "C" fn cms_part(state: &mut [u64; 2], room: &mut [u8], part: &[u8]) -> u64
    ensures value { result ≡ number_of (part_told state.old) }
    ensures state_after { state.new ≡ state_with state.old (length room.old) part.now }
    ensures room_after { room.new ≡ room_with state.old room.old part.now }
{
    let told = arriving::part(state, room, part);
    arriving::number(told)
}

// Ends the file, as one of the kind. Returns the refusal's number, 0 when accepted; the room stays as it is.
#[unsafe(no_mangle)]
pub extern "C" fn cms_end(
    kind: u32,
    state: &mut [u64; 2],
    room: &mut [u8],
    answer: &mut [u64; 5],
) -> u64
    ensures value { result ≡ (end_told kind state.old room.old).number }
    ensures state_after { state.new ≡ state_ended state.old }
    ensures room_unchanged { room.new ≡ room.old }
    ensures answer_after { answer.new ≡ five (end_told kind state.old room.old) }
{
    let told = Answer::of(ending::end(kind as u64, state, room));
    tell(told, answer)
}
