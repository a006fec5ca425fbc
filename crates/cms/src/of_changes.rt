// Answering what members applied for at their banks.
ghost use Rattle.std.specs.Prelude.{◌≡◌, length};
ghost use Rattle.changes_writer.specs.Writing.{write_of, room_after};
ghost use Rattle.telling.specs.Numbers.{six};

use changes_writer::writing;
use telling::answer::tell_stored;

// Writes the refused records of an EB11 as an EB12 into the room: `answers` has a number for each record, 0 for yes, or a code.
// Returns the refusal's number, 0 when accepted; a refusal leaves the room as it was.
#[unsafe(no_mangle)]
pub extern "C" fn cms_write_eb12(
    eb11: &[u8],
    answers: &[u64],
    room: &mut [u8],
    answer: &mut [u64; 6],
) -> u64
    ensures value { result ≡ (write_of eb11.now answers.now (length room.old)).answer.number }
    ensures room_after { room.new ≡ room_after eb11.now answers.now room.old }
    ensures answer_after { answer.new ≡ six (write_of eb11.now answers.now (length room.old)) }
{
    let stored = writing::write(eb11, answers, room);
    tell_stored(stored, answer)
}
