// What a class writes at its places.
ghost use Rattle.std.specs.Prelude.{◌≡◌, ℕ, true};
ghost use Rattle.builder.specs.Bytes.{fill_by};

use tables::row::Class;

// What a class writes.
pub(crate) fn fill(class: Class, given: u8, letter: u8, digit: u8, theirs: u8) -> u8
    ensures { result ≡ fill_by class given letter digit theirs }
{
    match class {
        Class::Each(low, high) if low == high => low,
        Class::KindName => letter,
        Class::Serial => digit,
        Class::AsHeader => theirs,
        _ => given,
    }
}

// A class of one byte writes it, whatever is given.
pub(crate) fn fixed(class: Class) -> bool
    ensures { result ≡ true → (given theirs : ℕ) → fill_by class given 0 0 theirs ≡ fill_by class 0 0 0 theirs }
{
    match class {
        Class::Each(low, high) => low == high,
        _ => false,
    }
}
