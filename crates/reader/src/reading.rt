// Reading a file: 1, 2, 3; then records and items in order; then totals; then keys.
ghost use Rattle.std.specs.Prelude.{◌≡◌};
ghost use Rattle.answers.specs.Refusing.{answer_of};
ghost use Rattle.reader.specs.Reading.{is_whole, length_tells, read_as, read_of};

use crate::{judged, repeats, totals};
use answers::refusing::Refusal;
use kinds::of_files;
use kinds::of_files::{Fixed, Kind, LIMIT};

fn is_whole(kind: Kind, length: usize) -> bool
    ensures { result ≡ is_whole kind length }
{
    let size = Fixed::of(kind).size;
    length % size == 0 && 2 <= length / size
}

// What the number of its bytes alone tells of a file of a kind.
pub fn length_tells(kind: Kind, length: usize) -> Result<(), Refusal>
    ensures { answer_of result ≡ length_tells kind length }
{
    if !is_whole(kind, length) {
        return Err(Refusal::Length);
    }
    if LIMIT + 2 < length / Fixed::of(kind).size {
        return Err(Refusal::TooMany);
    }
    Ok(())
}

// Reads any bytes as a file of a kind.
pub fn read_as(kind: Kind, file: &[u8]) -> Result<(), Refusal>
    ensures { answer_of result ≡ read_as kind file.now }
{
    length_tells(kind, file.len())?;
    judged::records_tell(kind, file)?;
    totals::totals_tell(kind, file)?;
    repeats::keys_tell(kind, file)
}

// Reads any bytes as a file of any kind: `kind` is a kind's four letters as one number.
pub fn read(kind: u64, file: &[u8]) -> Result<(), Refusal>
    ensures { answer_of result ≡ read_of kind file.now }
{
    let Some(known) = of_files::kind_of(kind) else {
        return Err(Refusal::UnknownKind);
    };
    read_as(known, file)
}
