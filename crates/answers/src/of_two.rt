// Why two files are refused that belong together, or two results of one request.
ghost use Rattle.std.specs.Prelude.{◌≡◌};
ghost use Rattle.answers.specs.declared.of_two.OfTwo.TheVariants.{Both};

use crate::refusing::Refusal;

// The two together; the first, a request, by its own reading; or the second, its result or its evidence.
#[derive(Clone, Copy, PartialEq, Eq)]
pub enum OfTwo {
    Both(Refusal),
    First(Refusal),
    Second(Refusal),
}

impl From<Refusal> for OfTwo {
    ghost from_gives = { λ refusal of_two. of_two ≡ Both refusal };

    fn from(refusal: Refusal) -> Self {
        OfTwo::Both(refusal)
    }
}

// The request with its first result, or with its second.
#[derive(Clone, Copy, PartialEq, Eq)]
pub enum OfResults {
    WithFirst(OfTwo),
    WithSecond(OfTwo),
}
