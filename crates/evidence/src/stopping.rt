// Why a file is refused, and where.
ghost use Rattle.std.specs.Prelude.{◌≡◌};
ghost use Rattle.evidence.specs.Stopping.{stopped_at};

use answers::refusing::Refusal;

// The refusal, and how many records are good before the first that is refused.
#[derive(Clone, Copy, PartialEq, Eq)]
pub struct Stopped {
    pub refusal: Refusal,
    pub good: usize,
}

// Where the size or the header is refused, no record is good.
impl From<Refusal> for Stopped {
    ghost from_gives = { λ refusal stopped. stopped ≡ stopped_at refusal 0 };

    fn from(refusal: Refusal) -> Self {
        Stopped { refusal, good: 0 }
    }
}

impl From<Stopped> for Refusal {
    ghost from_gives = { λ stopped refusal. refusal ≡ stopped.refusal };

    fn from(stopped: Stopped) -> Self {
        stopped.refusal
    }
}
