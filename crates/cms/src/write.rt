// Writing a request file.
ghost use Rattle.std.specs.Prelude.{◌≡◌, length};
ghost use Rattle.builder.specs.Records.{head_of};
ghost use Rattle.writer.specs.Writing.{write_of, room_after};
ghost use Rattle.telling.specs.Numbers.{five};

use answers::told::Answer;
use builder::heads::Head;
use telling::answer::tell;
use writer::writing;

// Writes a file of the kind into the room. Returns the refusal's number, 0 when accepted; a refusal leaves the room as it was.
#[unsafe(no_mangle)]
pub extern "C" fn cms_write(
    kind: u32,
    date: &[u8],
    code: &[u8],
    item6: &[u8],
    item7: &[u8],
    bodies: &[u8],
    room: &mut [u8],
    answer: &mut [u64; 5],
) -> u64
    ensures value { result ≡ (write_of kind (head_of date.now code.now item6.now item7.now) bodies.now (length room.old)).number }
    ensures room_after { room.new ≡ room_after kind (head_of date.now code.now item6.now item7.now) bodies.now room.old }
    ensures answer_after { answer.new ≡ five (write_of kind (head_of date.now code.now item6.now item7.now) bodies.now (length room.old)) }
{
    let head = Head {
        date,
        code,
        item6,
        item7,
    };
    let told = Answer::of(writing::write(kind as u64, head, bodies, room));
    tell(told, answer)
}
