// The passes over the board, each a loop over its members.
ghost use Rattle.std.specs.Prelude.{◌≡◌, ◌≤◌, length};
ghost use Rattle.answers.specs.Refusing.{answer_of};
ghost use Rattle.payers.specs.Members.{repeat_number, repeat_tells};
ghost use Rattle.payers.specs.Payers.{members_after};
ghost use Rattle.payers.specs.Turns.{dues_key, listed};
ghost use Rattle.board.specs.Passing.{SeekBegins, Marks};

use answers::refusing::Refusal;
use dues::steps;
use payers::members::Member;
use payers::paying::Requests;
use payers::seeking;
use payers::turns::Place;

// 43: the first member that has an earlier one's payer.
pub(crate) fn seek(board: &[Member], links: &mut [u16], room: &mut [u8]) -> Result<(), Refusal>
    requires { SeekBegins links.old room.old }
    ensures { answer_of result ≡ repeat_tells (repeat_number board.now) }
{
    let mut place = Place::first(board.len());
    while place.at < place.end {
        place = seeking::seek(place, board[place.at].payer, links, room);
    }
    steps::repeat_tells(board.len(), place.end)
}

// Marks each of the requests with what is told of it, if its payer is on the board.
pub(crate) fn mark(board: &[Member], requests: Requests, marks: &mut [u8])
    requires { requests.n ≤ length marks.old }
    ensures { Marks requests.entry.n board.now requests.entry.request.now requests.entry.taken.now marks.old marks.new }
{
    for member in board {
        requests.mark(*member, marks);
    }
}

// Settles the members that the requests name.
pub(crate) fn settle(board: &mut [Member], requests: Requests)
    ensures { board.new ≡ members_after (dues_key requests.entry.request.now) (listed requests.entry.taken.now) requests.entry.n board.old }
{
    for member in board.iter_mut() {
        *member = requests.settle(*member);
    }
}
