// Reading one file.
ghost use Rattle.std.specs.Prelude.{◌≡◌};
ghost use Rattle.reader.specs.Reading.{read_of};
ghost use Rattle.telling.specs.Numbers.{five};

use answers::told::Answer;
use reader::reading;
use telling::answer::tell;

// Reads the file as one of the kind. Returns the refusal's number, 0 when accepted.
#[unsafe(no_mangle)]
pub extern "C" fn cms_read(kind: u32, file: &[u8], answer: &mut [u64; 5]) -> u64
    ensures value { result ≡ (read_of kind file.now).number }
    ensures answer_after { answer.new ≡ five (read_of kind file.now) }
{
    let told = Answer::of(reading::read(kind as u64, file));
    tell(told, answer)
}
