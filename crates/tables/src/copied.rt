// The items that a result copies from its request: rows of item, start and length.
ghost use Rattle.std.specs.Prelude.{◌≡◌};
ghost use Rattle.tables.specs.Copied.{copied_of};

use kinds::of_files::{Form, Kind};

// Item, start, length.
#[derive(Clone, Copy)]
pub struct Copied(pub u64, pub usize, pub usize);

const ENROLMENT_COPIED: [Copied; 13] = [
    Copied(3, 9, 10),
    Copied(4, 19, 6),
    Copied(5, 25, 1),
    Copied(6, 26, 20),
    Copied(7, 46, 7),
    Copied(8, 53, 16),
    Copied(9, 69, 16),
    Copied(10, 85, 4),
    Copied(11, 89, 2),
    Copied(13, 96, 1),
    Copied(14, 97, 12),
    Copied(15, 109, 1),
    Copied(16, 110, 10),
];

const DEBIT_COPIED: [Copied; 11] = [
    Copied(3, 9, 10),
    Copied(4, 19, 7),
    Copied(5, 26, 16),
    Copied(7, 55, 13),
    Copied(9, 73, 16),
    Copied(10, 89, 2),
    Copied(11, 91, 20),
    Copied(12, 111, 5),
    Copied(13, 116, 1),
    Copied(14, 117, 12),
    Copied(15, 129, 21),
];

// The items that a result of the kind, or of its pair, copies.
pub fn copied_of(kind: Kind) -> &'static [Copied]
    ensures { result.now ≡ copied_of kind }
{
    match kind.form {
        Form::EnrolmentRequest | Form::EnrolmentResult | Form::BankEnrolment => &ENROLMENT_COPIED,
        Form::DebitRequest | Form::DebitResult => &DEBIT_COPIED,
    }
}
