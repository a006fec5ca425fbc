// What the data records of a file add up to.
ghost use Rattle.std.specs.Prelude.{◌≡◌, cond, ◌+◌, ◌≤◌, ◌<◌, ◌^◌, eqb, length};
ghost use Rattle.kinds.specs.Kinds.{limit};
ghost use Rattle.layout.specs.Items.{code_of};
ghost use Rattle.tables.specs.Makers.{maker_of, by_centre};
ghost use Rattle.records.specs.Records.{count_of, data_of};
ghost use Rattle.records.specs.Quantities.{worth, worth_at, quantity_of};

use crate::listed;
use kinds::of_files::Kind;
use layout::items;
use numbers::base_ten;
use tables::makers;
use tables::makers::Maker;
use tables::totals::Quantity;
use text::parts;

// The number where the two bytes are equal, else 0.
fn if_equal(a: u8, b: u8, n: u64) -> u64
    ensures value { result ≡ cond (eqb a b) n 0 }
    ensures upper_bound { result ≤ n }
{
    if a == b { n } else { 0 }
}

// 1 where the centre set the code of a debit result, else 0.
fn by_centre(rec: &[u8]) -> u64
    requires { 120 ≤ length rec.now }
    ensures value { result ≡ by_centre (maker_of (code_of rec.now)) }
    ensures upper_bound { result ≤ 1 }
{
    let maker = makers::maker_of(base_ten::word(parts::part(rec, items::MARK + 1, 4)));
    match maker {
        Maker::None | Maker::Bank => 0,
        Maker::Centre => 1,
    }
}

// What one data record adds to a quantity.
#[tactic(auto, unfolding(crate::specs::Quantities::worth))]
fn worth(quantity: Quantity, rec: &[u8]) -> u64
    requires { 120 ≤ length rec.now }
    ensures value { result ≡ worth quantity rec.now }
    ensures upper_bound { result < 10 ^ 13 }
{
    match quantity {
        Quantity::Records => 1,
        Quantity::OfKind(b) => if_equal(parts::byte(rec, items::APPLICATION), b, 1),
        Quantity::Amounts => items::amount(rec),
        Quantity::Marked(b) => if_equal(parts::byte(rec, items::MARK), b, 1),
        Quantity::AmountsMarked(b) => if_equal(
            parts::byte(rec, items::MARK),
            b,
            items::amount(rec),
        ),
        Quantity::MarkedByCentre(b) => if_equal(parts::byte(rec, items::MARK), b, by_centre(rec)),
    }
}

// What data record i + 1 adds to a quantity.
pub fn worth_at(kind: Kind, file: &[u8], quantity: Quantity, i: usize) -> u64
    requires { i < data_of kind file.now }
    ensures value { result ≡ worth_at kind file.now quantity i }
    ensures upper_bound { result < 10 ^ 13 }
{
    worth(quantity, listed::record_of(kind, file, i + 1))
}

// What all data records give: true sums, that fit since there are few records.
pub fn quantity_of(kind: Kind, file: &[u8], quantity: Quantity) -> u64
    requires bound { 2 ≤ count_of kind file.now }
    requires file_bound { count_of kind file.now ≤ limit + 2 }
    ensures { result ≡ quantity_of kind file.now quantity }
{
    let mut sum = 0;
    for i in 0..listed::data_count(kind, file) {
        sum += worth_at(kind, file, quantity, i);
    }
    sum
}
