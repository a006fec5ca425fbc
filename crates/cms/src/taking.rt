// Taking a request file apart.
ghost use Rattle.std.specs.Prelude.{◌≡◌, length};
ghost use Rattle.apart.specs.Taking.{apart_of, apart_after};
ghost use Rattle.telling.specs.Numbers.{six};

use apart::storing;
use telling::answer::tell_stored;

// Stores the bodies of a file of the kind one behind the other. Returns the refusal's number, 0 when accepted; a refusal
// leaves the room for the bodies as it was.
#[unsafe(no_mangle)]
pub extern "C" fn cms_apart(kind: u32, file: &[u8], bodies: &mut [u8], answer: &mut [u64; 6]) -> u64
    ensures value { result ≡ (apart_of kind file.now (length bodies.old)).answer.number }
    ensures bodies_after { bodies.new ≡ apart_after kind file.now bodies.old }
    ensures answer_after { answer.new ≡ six (apart_of kind file.now (length bodies.old)) }
{
    let stored = storing::take_apart(kind as u64, file, bodies);
    tell_stored(stored, answer)
}
