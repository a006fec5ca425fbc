// The records of a file to be written, each built as its own bytes.
ghost use Rattle.std.specs.Prelude.{◌≡◌, ℕ, ◌+◌, ◌≤◌, ◌<◌, List, length};
ghost use Rattle.kinds.specs.Kinds.{fixed_of};
ghost use Rattle.laws.specs.Stored.{stored};
ghost use Rattle.builder.specs.Bytes.{written};
ghost use Rattle.builder.specs.Records.{given, given_item, header_fill, data_built, total_for, trailer_fill, trailer_by, header_built, trailer_built};

use crate::bytes;
use crate::heads::Head;
use kinds::of_files::{Fixed, Kind, Role};
use numbers::base_ten;
use rows::by_record;
use tables::row::Row;
use tables::totals;
use tables::totals::MOST_TOTALS;
use text::parts;

// What is given for an item of the header.
#[tactic(auto, unfolding(crate::specs::Records::given_item))]
fn given_item<'a>(head: Head<'a>, item: u64) -> &'a [u8]
    ensures { result.now ≡ given_item (given head.entry) item }
{
    match item {
        3 => head.code,
        4 => parts::rest(head.date, 2),
        5 => head.date,
        6 => head.item6,
        _ => head.item7,
    }
}

// Puts what a row of the header writes: its one byte, the kind's letters, or what is given for its item.
fn put_header_row(rec: &mut [u8], kind: Kind, head: Head, row: Row)
    requires { row.1 + row.2 ≤ length rec.old }
    ensures { rec.new ≡ stored row.1 (written (header_fill kind (given head.entry)) row) rec.old }
{
    let theirs = given_item(head, row.0 as u64);
    for d in 0..row.2 as usize {
        let given = parts::byte(theirs, d);
        let letter = base_ten::letter(kind.own.name, d);
        rec[row.1 as usize + d] = bytes::fill(row.3, given, letter, 0, 0);
    }
}

// The total that an item of the trailer says.
fn total_for(kind: Kind, sums: [u64; MOST_TOTALS], item: u64) -> u64
    ensures { result ≡ total_for kind sums item }
{
    let totals = totals::totals_of(kind);
    let place = totals.iter().position(|total| total.0 == item);
    let t = place.unwrap_or(totals.len());
    sums.get(t).copied().unwrap_or(0)
}

// The total that a row of the trailer says; none is looked up where its class fixes what it writes.
fn total_said(kind: Kind, sums: [u64; MOST_TOTALS], row: Row) -> u64
    ensures { (header : List ℕ) → (j : ℕ) → trailer_fill row header result j ≡ trailer_by kind header sums row j }
{
    if bytes::fixed(row.3) {
        return 0;
    }
    total_for(kind, sums, row.0 as u64)
}

// Byte j of the trailer as a row says it, with the total of its item.
fn trailer_byte(row: Row, header: &[u8], total: u64, j: usize) -> u8
    requires { row.2 < 1000 }
    ensures { result ≡ trailer_fill row header.now total j }
{
    let class = row.3;
    let theirs = parts::byte(header, j);
    if bytes::fixed(class) {
        return bytes::fill(class, 0, 0, 0, theirs);
    }
    let digit = base_ten::digit_at(total, row.2 as usize, j.saturating_sub(row.1 as usize));
    bytes::fill(class, digit, 0, 0, theirs)
}

// Puts what a row of the trailer writes.
fn put_trailer_row(rec: &mut [u8], kind: Kind, header: &[u8], sums: [u64; MOST_TOTALS], row: Row)
    requires row_in_bounds { row.1 + row.2 ≤ length rec.old }
    requires row_bound { row.2 < 1000 }
    ensures { rec.new ≡ stored row.1 (written (trailer_by kind header.now sums) row) rec.old }
{
    let total = total_said(kind, sums, row);
    for d in 0..row.2 as usize {
        let j = row.1 as usize + d;
        rec[j] = trailer_byte(row, header, total, j);
    }
}

// The header as its own bytes, from its last row to its first: where rows are over the same places the first of them stands.
pub(crate) fn header<const N: usize>(kind: Kind, head: Head) -> [u8; N]
    requires { (fixed_of kind).size ≡ N }
    ensures { result ≡ header_built kind (given head.entry) }
{
    let mut rec = [0; N];
    for row in by_record::rows_of(kind, Role::Header).iter().rev() {
        put_header_row(&mut rec, kind, head, *row);
    }
    rec
}

// Data record i + 1 as its own bytes: "R", its serial, the header's own bytes, and the body as far as there is one.
pub(crate) fn data<const N: usize>(kind: Kind, header: &[u8], bodies: &[u8], i: usize) -> [u8; N]
    requires kind_value { (fixed_of kind).size ≡ N }
    requires header_len { length header.now ≡ N }
    requires i_bound { i < 1000000 }
    ensures { result ≡ data_built kind header.now bodies.now i }
{
    let mut rec = [0; N];
    rec[0] = b'R';
    base_ten::put_digits(&mut rec, 1, 8, (i + 1) as u64);
    parts::put(&mut rec, 9, parts::part(header, 9, 10));
    let body = parts::rest(bodies, i * Fixed::of(kind).body);
    let n = body.len().min(N - Fixed::FRONT);
    parts::put(&mut rec, Fixed::FRONT, &body[..n]);
    rec
}

// The trailer as its own bytes, in the same way.
pub(crate) fn trailer<const N: usize>(
    kind: Kind,
    header: &[u8],
    sums: [u64; MOST_TOTALS],
) -> [u8; N]
    requires { (fixed_of kind).size ≡ N }
    ensures { result ≡ trailer_built kind header.now sums }
{
    let mut rec = [0; N];
    for row in by_record::rows_of(kind, Role::Trailer).iter().rev() {
        put_trailer_row(&mut rec, kind, header, sums, *row);
    }
    rec
}
