// The trailer's totals: rows of item, start, length and the quantity that the item must say.
ghost use Rattle.std.specs.Prelude.{◌≡◌};
ghost use Rattle.tables.specs.Totals.{totals_of};

use kinds::of_files::{Form, Kind};

// What the data records give.
#[derive(Clone, Copy)]
pub enum Quantity {
    // how many there are
    Records,
    // how many are of an application kind
    OfKind(u8),
    // the sum of their amounts
    Amounts,
    // how many have a mark
    Marked(u8),
    // the sum of the amounts of those that have a mark
    AmountsMarked(u8),
    // how many have a mark and a code that the centre set
    MarkedByCentre(u8),
}

// Item, start, length, quantity.
#[derive(Clone, Copy)]
pub struct Total(pub u64, pub usize, pub usize, pub Quantity);

// No trailer has more.
pub const MOST_TOTALS: usize = 6;

const ENROLMENT_TOTALS: [Total; 4] = [
    Total(5, 27, 8, Quantity::Records),
    Total(6, 35, 8, Quantity::OfKind(b'1')),
    Total(8, 51, 8, Quantity::OfKind(b'3')),
    Total(9, 59, 8, Quantity::OfKind(b'7')),
];

const DEBIT_REQUEST_TOTALS: [Total; 3] = [
    Total(5, 27, 8, Quantity::Records),
    Total(6, 35, 8, Quantity::Records),
    Total(7, 43, 13, Quantity::Amounts),
];

const DEBIT_RESULT_TOTALS: [Total; 6] = [
    Total(5, 27, 8, Quantity::Records),
    Total(6, 35, 8, Quantity::Marked(b'N')),
    Total(7, 43, 13, Quantity::AmountsMarked(b'N')),
    Total(8, 56, 8, Quantity::Marked(b'P')),
    Total(9, 64, 13, Quantity::AmountsMarked(b'P')),
    Total(10, 77, 8, Quantity::MarkedByCentre(b'N')),
];

// The totals of a trailer of the kind.
pub fn totals_of(kind: Kind) -> &'static [Total]
    ensures { result.now ≡ totals_of kind }
{
    match kind.form {
        Form::EnrolmentRequest | Form::EnrolmentResult | Form::BankEnrolment => &ENROLMENT_TOTALS,
        Form::DebitRequest => &DEBIT_REQUEST_TOTALS,
        Form::DebitResult => &DEBIT_RESULT_TOTALS,
    }
}
