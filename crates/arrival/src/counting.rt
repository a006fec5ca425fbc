// Bytes counted without end.
ghost use Rattle.std.specs.Prelude.{◌≡◌, ◌+◌};
ghost use Rattle.arrival.specs.Counting.{counted};

use kinds::of_files::{Fixed, LIMIT};

// The longest file that the limit allows.
const LONGEST: usize = (LIMIT + 2) * Fixed::DEBIT_SIZE;

// Records of both lengths end where it ends.
const CYCLE: usize = 600;

// The first whole number of cycles past the longest file.
const TURN: usize = (LONGEST / CYCLE + 1) * CYCLE;

// Both numbers together, as they are counted: no sum is formed past the turn.
pub(crate) fn count_on(n: usize, more: usize) -> usize
    ensures { result ≡ counted (n + more) }
{
    if n < TURN && more < TURN - n {
        return n + more;
    }
    TURN + (n % CYCLE + more % CYCLE) % CYCLE
}
