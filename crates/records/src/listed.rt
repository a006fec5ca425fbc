// The records of a file by their place.
ghost use Rattle.std.specs.Prelude.{◌≡◌, ◌*◌, ◌<◌, length};
ghost use Rattle.kinds.specs.Kinds.{fixed_of};
ghost use Rattle.records.specs.Records.{record_of, count_of, data_of};

use kinds::of_files::{Fixed, Kind};
use text::parts;

// How many whole records the file has.
pub fn count(kind: Kind, file: &[u8]) -> usize
    ensures { result ≡ count_of kind file.now }
{
    file.len() / Fixed::of(kind).size
}

// How many data records it has: all but the header and the trailer.
pub fn data_count(kind: Kind, file: &[u8]) -> usize
    ensures { result ≡ data_of kind file.now }
{
    count(kind, file).saturating_sub(2)
}

// Record i of a file of a kind; 0 is the header.
pub fn record_of(kind: Kind, file: &[u8], i: usize) -> &[u8]
    requires { i < count_of kind file.now }
    ensures result_value { result.now ≡ record_of kind file.now i }
    ensures result_len { length result.now ≡ (fixed_of kind).size }
{
    let size = Fixed::of(kind).size;
    parts::part(file, i * size, size)
}
