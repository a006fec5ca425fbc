// A walker opened on one lent file: it holds the file and a place, and each step is the covered walk's.
ghost use Rattle.std.specs.Prelude.{◌≡◌};
ghost use Rattle.walker.specs.Walks.{walked_by, walk_of};

use crate::walking;
use crate::walking::Record;
use answers::refusing::Refusal;
use kinds::of_files::Kind;

// The kind, or why the file is refused, is kept from the opening, so that a step does not read the file again.
#[derive(Clone, Copy)]
pub struct Walker<'a> {
    pub file: &'a [u8],
    pub place: u64,
    pub kind: Result<Kind, Refusal>,
}

impl<'a> Walker<'a> {
    ghost use Rattle.walker.specs.Walkers.{open_on, handed_by, moved_on};

    // Reads the file once, and stands before its first data record.
    pub fn opened(kind: u64, file: &'a [u8]) -> Self
        ensures { open_on kind file.entry result }
    {
        Walker {
            file,
            place: 0,
            kind: walking::known(kind, file),
        }
    }

    // Hands out the record after the walker's place, or none at the end, and moves past a record.
    pub fn next(&mut self) -> Result<Option<Record>, Refusal>
        ensures { (walked_by result ≡ handed_by self.old) × (self.new ≡ moved_on self.old) }
    {
        let handed = walking::record_after(self.kind?, self.file, self.place);
        if let Some(record) = handed {
            self.place = record.number;
        }
        Ok(handed)
    }
}

// Opens a walker, takes steps, and hands out the next: what a caller with a plain slice sees of a walker.
pub fn after_steps(kind: u64, file: &[u8], steps: u64) -> Result<Option<Record>, Refusal>
    ensures { walked_by result ≡ walk_of kind file.now steps }
{
    let mut walker = Walker::opened(kind, file);
    for _ in 0..steps {
        walker.next()?;
    }
    walker.next()
}
