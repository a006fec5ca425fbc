// A file put into lent bytes, one record at a time.
ghost use Rattle.std.specs.Prelude.{◌≡◌, ◌++◌, ◌+◌, ◌*◌, ◌≤◌, ◌<◌, length, take, drop};
ghost use Rattle.kinds.specs.Kinds.{fixed_of, limit};
ghost use Rattle.tables.specs.Totals.{most_totals};
ghost use Rattle.records.specs.Records.{count_of};
ghost use Rattle.laws.specs.Joined.{joined};
ghost use Rattle.builder.specs.Records.{given, body_count, header_built, data_built, file_total, trailer_built};
ghost use Rattle.laws.specs.Stored.{stored};
ghost use Rattle.builder.specs.Files.{file_of};
ghost use Rattle.laws.specs.Tabulate.{tabulate};

use crate::building;
use crate::heads::Head;
use kinds::of_files::{Fixed, Kind};
use records::quantities;
use std::array;
use tables::totals;
use tables::totals::MOST_TOTALS;
use text::parts;

// Builds the header and stores it at the front.
// Kept: here and below a branch for each size, since each array has its own type; one function for all would be no plainer.
pub fn put_header(kind: Kind, head: Head, file: &mut [u8])
    requires { (fixed_of kind).size ≤ length file.old }
    ensures { file.new ≡ stored 0 (header_built kind (given head.entry)) file.old }
{
    if Fixed::size_of(kind) == Fixed::ENROLMENT_SIZE {
        let rec: [u8; Fixed::ENROLMENT_SIZE] = building::header(kind, head);
        parts::put(file, 0, &rec);
    } else {
        let rec: [u8; Fixed::DEBIT_SIZE] = building::header(kind, head);
        parts::put(file, 0, &rec);
    }
}

// Builds data record i + 1 by the header that stands in front, and stores it.
pub fn put_record(kind: Kind, bodies: &[u8], i: usize, at: usize, file: &mut [u8])
    requires i_lt_limit { i < limit }
    requires kind_in_bounds { at + (fixed_of kind).size ≤ length file.old }
    ensures { file.new ≡ stored at (data_built kind (take (fixed_of kind).size file.old) bodies.now i) file.old }
{
    let size = Fixed::size_of(kind);
    if size == Fixed::ENROLMENT_SIZE {
        let rec: [u8; Fixed::ENROLMENT_SIZE] = building::data(kind, &file[..size], bodies, i);
        parts::put(file, at, &rec);
    } else {
        let rec: [u8; Fixed::DEBIT_SIZE] = building::data(kind, &file[..size], bodies, i);
        parts::put(file, at, &rec);
    }
}

// Stores the data records behind the header.
fn put_data(kind: Kind, bodies: &[u8], n: usize, file: &mut [u8])
    requires n_le_limit { n ≤ limit }
    requires kind_in_bounds { (n + 2) * (fixed_of kind).size ≤ length file.old }
    ensures { file.new ≡ take (fixed_of kind).size file.old ++ joined (data_built kind (take (fixed_of kind).size file.old) bodies.now) n ++ drop ((n + 1) * (fixed_of kind).size) file.old }
{
    let size = Fixed::size_of(kind);
    for i in 0..n {
        put_record(kind, bodies, i, (i + 1) * size, file);
    }
}

// Total t of a file whose data records stand; 0 where the trailer has fewer.
fn sum_at(kind: Kind, file: &[u8], t: usize) -> u64
    requires bound { 2 ≤ count_of kind file.now }
    requires file_bound { count_of kind file.now ≤ limit + 2 }
    ensures { result ≡ file_total kind file.now t }
{
    match totals::totals_of(kind).get(t) {
        Some(total) => quantities::quantity_of(kind, file, total.3),
        None => 0,
    }
}

// All of them.
fn sums_of(kind: Kind, file: &[u8]) -> [u64; MOST_TOTALS]
    requires bound { 2 ≤ count_of kind file.now }
    requires file_bound { count_of kind file.now ≤ limit + 2 }
    ensures { result ≡ tabulate (file_total kind file.now) most_totals }
{
    array::from_fn(|t| sum_at(kind, file, t))
}

// Builds the trailer by the header that stands in front, and stores it.
pub fn put_trailer(kind: Kind, sums: [u64; MOST_TOTALS], at: usize, file: &mut [u8])
    requires { at + (fixed_of kind).size ≤ length file.old }
    ensures { file.new ≡ stored at (trailer_built kind (take (fixed_of kind).size file.old) sums) file.old }
{
    let size = Fixed::size_of(kind);
    if size == Fixed::ENROLMENT_SIZE {
        let rec: [u8; Fixed::ENROLMENT_SIZE] = building::trailer(kind, &file[..size], sums);
        parts::put(file, at, &rec);
    } else {
        let rec: [u8; Fixed::DEBIT_SIZE] = building::trailer(kind, &file[..size], sums);
        parts::put(file, at, &rec);
    }
}

// Stores a whole file: header, data records, trailer.
pub fn put(kind: Kind, head: Head, bodies: &[u8], n: usize, file: &mut [u8])
    requires n_value { n ≡ body_count kind bodies.now }
    requires n_le_limit { n ≤ limit }
    requires kind_in_bounds { (n + 2) * (fixed_of kind).size ≤ length file.old }
    ensures { file.new ≡ file_of kind (given head.entry) bodies.now ++ drop ((n + 2) * (fixed_of kind).size) file.old }
{
    put_header(kind, head, file);
    put_data(kind, bodies, n, file);
    let size = Fixed::size_of(kind);
    let sums = sums_of(kind, &file[..(n + 2) * size]);
    put_trailer(kind, sums, (n + 1) * size, file);
}
