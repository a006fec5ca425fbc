// Any file taken apart: what was given for it, as parts of the lent bytes. Of a file that is too short a part is as much of
// it as is there.
ghost use Rattle.std.specs.Prelude.{◌≡◌};
ghost use Rattle.laws.specs.Part.{part};
ghost use Rattle.records.specs.Records.{record_of};
ghost use Rattle.writer.specs.Apart.{head_in};
ghost use Rattle.apart.specs.Taking.{body_of};

use kinds::of_files::{Fixed, Kind};
use records::listed;
use text::parts;

// The part of s that begins at start and is size bytes long, or what s has of it.
fn part_of(s: &[u8], start: usize, size: usize) -> &[u8]
    ensures { result.now ≡ part start size s.now }
{
    let left = parts::rest(s, start);
    &left[..size.min(left.len())]
}

// The header.
fn header(kind: Kind, file: &[u8]) -> &[u8]
    ensures { result.now ≡ record_of kind file.now 0 }
{
    part_of(file, 0, Fixed::size_of(kind))
}

// The date.
pub fn date(kind: Kind, file: &[u8]) -> &[u8]
    ensures { result.now ≡ (head_in kind file.now).date }
{
    part_of(header(kind, file), 27, 6)
}

// The institution code.
pub fn code(kind: Kind, file: &[u8]) -> &[u8]
    ensures { result.now ≡ (head_in kind file.now).code }
{
    part_of(header(kind, file), 9, 10)
}

// The header's item 6; nothing in an enrolment.
pub fn item6(kind: Kind, file: &[u8]) -> &[u8]
    ensures { result.now ≡ (head_in kind file.now).item6 }
{
    part_of(header(kind, file), 33, Fixed::of(kind).item6)
}

// The header's item 7; nothing in an enrolment.
pub fn item7(kind: Kind, file: &[u8]) -> &[u8]
    ensures { result.now ≡ (head_in kind file.now).item7 }
{
    part_of(header(kind, file), 40, Fixed::of(kind).item7)
}

// The body of data record i + 1; nothing where there is no such record.
pub fn body(kind: Kind, file: &[u8], i: usize) -> &[u8]
    ensures { result.now ≡ body_of kind file.now i }
{
    if listed::data_count(kind, file) <= i {
        return &[];
    }
    let rec = listed::record_of(kind, file, i + 1);
    parts::part(rec, Fixed::FRONT, Fixed::of(kind).body)
}
