// Record after record of one file.
ghost use Rattle.std.specs.Prelude.{◌≡◌};
ghost use Rattle.walker.specs.Walks.{walk_of};
ghost use Rattle.telling.specs.Numbers.{eight};

use telling::step::tell_step;
use walker::walking;

// The record after `place` records, or the end. Returns the refusal's number, 0 when accepted.
#[unsafe(no_mangle)]
pub extern "C" fn cms_walk(kind: u32, file: &[u8], place: u64, answer: &mut [u64; 8]) -> u64
    ensures value { result ≡ (walk_of kind file.now place).answer.number }
    ensures answer_after { answer.new ≡ eight (walk_of kind file.now place) }
{
    let walked = walking::walk(kind as u64, file, place);
    tell_step(walked, answer)
}
