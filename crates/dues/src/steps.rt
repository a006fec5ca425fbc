// From one pass over the board to the next.
ghost use Rattle.std.specs.Prelude.{◌≡◌, ◌++◌, ◌≤◌, ◌<◌, length, drop};
ghost use Rattle.laws.specs.Tabulate.{tabulate};
ghost use Rattle.laws.specs.Least.{number_in};
ghost use Rattle.answers.specs.Answers.{first_told};
ghost use Rattle.answers.specs.Refusing.{answer_of};
ghost use Rattle.keys.specs.Chains.{links_of};
ghost use Rattle.payers.specs.Members.{repeat_tells};
ghost use Rattle.payers.specs.Turns.{dues_key};
ghost use Rattle.dues.specs.Steps.{unmet, MarkingAsks, mark_says, marks_say};

use answers::refusing::Refusal;
use keys::chains;
use keys::keyed::Keys;
use payers::paying::PAYERS;
use payers::turns;

// 43: of so many members the one at which the search for a payer that repeats has ended.
pub fn repeat_tells(many: usize, end: usize) -> Result<(), Refusal>
    ensures { answer_of result ≡ repeat_tells (number_in many end) }
{
    if let Some(member) = turns::number_in(many, end) {
        return Err(Refusal::SamePayer(member));
    }
    Ok(())
}

// Before the pass that marks n requests: they are chained by their payers, and each has 41, until a member is met.
pub fn marking(n: usize, request: &[u8], links: &mut [u16], room: &mut [u8])
    requires { MarkingAsks n request.now links.old room.old }
    ensures { (links.new ≡ links_of (dues_key request.now) n links.old) × (room.new ≡ tabulate unmet n ++ drop n room.old) }
{
    chains::clear(links);
    let requests = Keys {
        s: request,
        places: &[],
        spacing: PAYERS,
        n,
    };
    requests.chain(links);
    room[..n].fill(41);
}

// What the mark of request i + 1 tells: 0 is nothing, 42 over what its payer owes, and 41 stays where no member was met.
// Kept: a mark is a byte, since the marks lie in the room in which payers were held.
fn mark_says(i: usize, mark: u8) -> Result<(), Refusal>
    requires { i < 18446744073709551615 }
    ensures { answer_of result ≡ mark_says i mark }
{
    let request = i as u64 + 1;
    match mark {
        0 => Ok(()),
        42 => Err(Refusal::Over(request)),
        _ => Err(Refusal::NoMember(request)),
    }
}

// The first mark that tells something.
pub fn marks_tell(n: usize, room: &[u8]) -> Result<(), Refusal>
    requires { n ≤ length room.now }
    ensures { answer_of result ≡ first_told (marks_say room.now) n }
{
    for i in 0..n {
        mark_says(i, room[i])?;
    }
    Ok(())
}
