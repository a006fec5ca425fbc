// The walk on a plain slice and a place: record k + 1, or the end when k is n or more.
ghost use Rattle.std.specs.Prelude.{◌≡◌};
ghost use Rattle.answers.specs.Refusing.{answer_of};
ghost use Rattle.reader.specs.Reading.{read_of};
ghost use Rattle.walker.specs.Walks.{named_by, step_by, walked_by, step_of, walk_of};

use answers::refusing::Refusal;
use kinds::of_files;
use kinds::of_files::{Fixed, Kind};
use reader::reading;
use records::listed;

// A data record: its number, its first byte in the file, its length.
#[derive(Clone, Copy, PartialEq, Eq)]
pub struct Record {
    pub number: u64,
    pub start: u64,
    pub size: u64,
}

// The kind of a file, where the reader accepts it as one.
pub(crate) fn known(kind: u64, file: &[u8]) -> Result<Kind, Refusal>
    ensures told { answer_of result ≡ read_of kind file.now }
    ensures kind { named_by kind result }
{
    let Some(known) = of_files::kind_of(kind) else {
        return Err(Refusal::UnknownKind);
    };
    reading::read_as(known, file)?;
    Ok(known)
}

// Record k + 1, or none when k is n or more: no k + 1 is formed there.
pub(crate) fn record_after(kind: Kind, file: &[u8], place: u64) -> Option<Record>
    ensures { step_by result ≡ step_of kind file.now place }
{
    if listed::data_count(kind, file) as u64 <= place {
        return None;
    }
    let size = Fixed::of(kind).size as u64;
    let number = place + 1;
    Some(Record {
        number,
        start: number * size,
        size,
    })
}

// Reads the file as one of a kind, and hands out the record after the place, or none at the end.
pub fn walk(kind: u64, file: &[u8], place: u64) -> Result<Option<Record>, Refusal>
    ensures { walked_by result ≡ walk_of kind file.now place }
{
    let kind = known(kind, file)?;
    Ok(record_after(kind, file, place))
}
