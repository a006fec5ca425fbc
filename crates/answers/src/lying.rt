// Where a part of a lent file lies: the evidence of a record, or a body of a day.
ghost use Rattle.std.specs.Prelude.{◌≡◌};
ghost use Rattle.answers.specs.Lying.{is_one};

// The part begins at a byte of the file and is so long.
#[derive(Clone, Copy, PartialEq, Eq)]
pub struct Part {
    pub start: usize,
    pub size: usize,
}

// There is such a number, of n; numbers count from 1.
pub fn is_one(number: u64, n: u64) -> bool
    ensures { result ≡ is_one number n }
{
    1 <= number && number <= n
}
