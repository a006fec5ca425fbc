// A debit pair posted on the board: the passes over the members, one after the other, and what is told of the whole.
ghost use Rattle.std.specs.Prelude.{◌≡◌};
ghost use Rattle.dues.specs.Posting.{board_after};
ghost use Rattle.dues.specs.Steps.{board_posted, posted_by};

use crate::passing;
use answers::of_two::OfTwo;
use dues::{ready, steps};
use keys::chains::SLOTS;
use kinds::of_files::LIMIT;
use payers::members::Member;
use payers::paying::Requests;
use payers::seeking::HELD;

// Links for every slot, and for every payer that is held or every request, whichever may be more.
const LINKS: usize = SLOTS + if HELD < LIMIT { LIMIT } else { HELD };

// Room for the payers that are held, and later for a mark of each request.
const ROOM: usize = 20 * HELD;

// Posts a debit pair on the board, whose kind is the request's kind's four letters as one number. `dates` are those last posted, next-day's and same-day's,
// and those afterwards are answered. A refusal leaves every member as it was.
pub fn post(
    kind: u64,
    request: &[u8],
    res: &[u8],
    board: &mut [Member],
    dates: [u8; 12],
) -> Result<[u8; 12], OfTwo>
    ensures { (posted_by dates result ≡ board_posted kind request.now res.now board.old dates) × (board.new ≡ board_after kind request.now res.now board.old dates) }
{
    let mut links = [0u16; LINKS];
    let mut room = [0u8; ROOM];
    passing::seek(board, &mut links, &mut room)?;
    let mut taken = [0u64; LIMIT];
    let ready = ready::ready_of(kind, request, res, dates, &mut taken)?;
    steps::marking(ready.n, request, &mut links, &mut room);
    let requests = Requests {
        n: ready.n,
        request,
        taken: &taken,
        links: &links,
    };
    passing::mark(board, requests, &mut room);
    steps::marks_tell(ready.n, &room)?;
    passing::settle(board, requests);
    Ok(ready.dates)
}
