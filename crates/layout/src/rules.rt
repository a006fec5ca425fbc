// What each class asks of the bytes of its item.
ghost use Rattle.std.specs.Prelude.{◌≡◌, ◌||◌, ◌+◌, ◌≤◌, length};
ghost use Rattle.layout.specs.Rules.{owner, institution, one_of, office, failed, partly, enough, holds};

use crate::items;
use evidence_kinds::allowed;
use kinds::of_files::Own;
use numbers::{base_ten, dates};
use tables::codes;
use tables::row::{Class, Row};
use text::{characters, parts, passbook};

// Four spaces: a code that is left blank.
const BLANK: u64 = 0x2020_2020;

fn owner(item: &[u8], rec: &[u8]) -> bool
    ensures { result ≡ owner item.now rec.now }
{
    if parts::byte(rec, items::APPLICATION) == b'3' {
        return characters::code_text(item);
    }
    characters::filled(item)
}

fn institution(item: &[u8]) -> bool
    ensures { result ≡ institution item.now }
{
    characters::each(b'0', b'9', item)
        && parts::byte(item, 0) == b'9'
        && parts::byte(item, 1) == b'9'
}

fn one_of(a: u8, b: u8, c: u8, item: &[u8]) -> bool
    ensures { result ≡ one_of a b c item.now }
{
    [a, b, c].contains(&parts::byte(item, 0))
}

fn office(item: &[u8]) -> bool
    ensures { result ≡ office item.now }
{
    characters::each(b'0', b'9', item)
        || characters::each(b' ', b' ', item)
        || [items::CHANGE, items::CANCEL].contains(&base_ten::word(item))
}

fn failed(item: &[u8]) -> bool
    ensures { result ≡ failed item.now }
{
    parts::byte(item, 0) == b'N' && codes::table_code(base_ten::word(parts::rest(item, 1)))
}

fn partly(item: &[u8]) -> bool
    ensures { result ≡ partly item.now }
{
    let code = base_ten::word(parts::rest(item, 1));
    parts::byte(item, 0) == b'P' && (codes::table_code(code) || code == BLANK)
}

fn enough(least: u64, item: &[u8], rec: &[u8]) -> bool
    requires { 55 ≤ length rec.now }
    ensures { result ≡ enough least item.now rec.now }
{
    parts::byte(item, 0) == b'1' || least <= items::amount(rec)
}

// The row's rule holds in a record.
pub(crate) fn holds(own: Own, row: Row, rec: &[u8], header: &[u8], number: u64) -> bool
    requires row_in_bounds { row.1 + row.2 ≤ length rec.now }
    requires row_in_bounds_2 { row.1 + row.2 ≤ length header.now }
    requires in_bounds { 55 ≤ length rec.now }
    requires in_bounds_2 { 55 ≤ length header.now }
    ensures { result ≡ holds own rec.now header.now number row }
{
    let Row(_, start, size, class, _) = row;
    let start = start as usize;
    let size = size as usize;
    let item = parts::part(rec, start, size);
    match class {
        Class::Each(low, high) => characters::each(low, high, item),
        Class::CodeText => characters::code_text(item),
        Class::Filled => characters::filled(item),
        Class::Owner => owner(item, rec),
        Class::Institution => institution(item),
        Class::KindName => base_ten::word(item) == own.name,
        Class::Date => dates::date(item),
        Class::NameDate => parts::same(parts::rest(item, 2), parts::part(rec, 23, 4)),
        Class::Serial => base_ten::says(item, number),
        Class::AsHeader => parts::same(item, parts::part(header, start, size)),
        Class::NotLater => dates::not_later(item, parts::part(header, 27, 6)),
        Class::Office => office(item),
        Class::NotZero => !characters::each(b'0', b'0', item),
        Class::Failed => failed(item),
        Class::FailedOrPart => failed(item) || partly(item),
        Class::Least => enough(own.least, item, rec),
        Class::LongDate => dates::long_date(item),
        Class::HeaderFrom(from) => parts::begins(item, parts::rest(header, from as usize)),
        Class::Extension => allowed::extension(parts::byte(rec, 106), item),
        Class::PassbookForm => passbook::passbook_form(item),
        Class::OneOf(a, b, c) => one_of(a, b, c, item),
    }
}
