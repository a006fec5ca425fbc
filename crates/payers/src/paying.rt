// What was taken of a member by its requests, which are found along the chain of its payer.
ghost use Rattle.std.specs.Prelude.{◌≡◌};
ghost use Rattle.payers.specs.Payers.{state_of, over_number};
ghost use Rattle.payers.specs.Turns.{DuesAsks};

use crate::members::Member;
use keys::keyed::Keys;
use keys::linked::Linked;
use keys::stands::Spacing;
use matching::amounts;

// Where the payers of debit requests stand.
pub const PAYERS: Spacing = Spacing {
    stride: 150,
    offset: 241,
    size: 20,
};

// n debit requests, chained by their payers, and what was taken of each.
#[derive(Clone, Copy)]
pub struct Requests<'a> {
    pub n: usize,
    pub request: &'a [u8],
    pub taken: &'a [u64],
    pub links: &'a [u16],
    pub ghost asks: { DuesAsks n request.now taken.now links.now },
}

impl<'a> Requests<'a> {
    ghost use Rattle.std.specs.Prelude.{◌≡◌, ◌≤◌, length};
    ghost use Rattle.keys.specs.Keyed.{key_of};
    ghost use Rattle.payers.specs.Payers.{taken_from};
    ghost use Rattle.payers.specs.Turns.{dues_key, listed, marks_with, marked, settled_by};

    // They by their payers.
    fn linked(&self) -> Linked<'a>
        ensures keys_value { key_of result.keys ≡ dues_key self.now.request.now }
        ensures n_value { result.keys.n ≡ self.now.n }
        ensures links_value { result.links.now ≡ self.now.links.now }
    {
        Linked {
            keys: Keys {
                s: self.request,
                places: &[],
                spacing: PAYERS,
                n: self.n,
            },
            links: self.links,
        }
    }

    // What was taken of all the payer's requests: from the last one back, so that only its chain is looked at.
    fn owing(&self, payer: &[u8]) -> u64
        ensures { result ≡ taken_from (dues_key self.now.request.now) (listed self.now.taken.now) self.now.n payer.now }
    {
        let requests = self.linked();
        let mut won: u64 = 0;
        let mut at = requests.last(payer);
        while let Some(i) = at {
            won += self.taken[i];
            at = requests.before(i);
        }
        won
    }

    // Each of the payer's requests is marked with a number.
    fn mark_with(&self, number: u8, payer: &[u8], marks: &mut [u8])
        requires { self.now.n ≤ length marks.old }
        ensures { marks.new ≡ marks_with (dues_key self.now.request.now) self.now.n payer.now number marks.old }
    {
        let requests = self.linked();
        let mut at = requests.last(payer);
        while let Some(i) = at {
            marks[i] = number;
            at = requests.before(i);
        }
    }

    // Each of the member's requests is marked with what is told of it, by the sum of all of them.
    pub fn mark(&self, member: Member, marks: &mut [u8])
        requires { self.now.n ≤ length marks.old }
        ensures { marks.new ≡ marked self.now.n member self.now.request.now self.now.taken.now marks.old }
    {
        let number = over_number(self.owing(&member.payer), member.owed);
        self.mark_with(number, &member.payer, marks);
    }

    // The member after the posting: as it was where no request names it.
    pub fn settle(&self, member: Member) -> Member
        ensures { result ≡ settled_by self.now.n member self.now.request.now self.now.taken.now }
    {
        if self.linked().last(&member.payer).is_none() {
            return member;
        }
        let owed = amounts::rest(member.owed, self.owing(&member.payer));
        Member {
            owed,
            state: state_of(owed),
            ..member
        }
    }
}

// 42, more was taken of a payer than it owes, or 0.
fn over_number(won: u64, owed: u64) -> u8
    ensures { result ≡ over_number won owed }
{
    if won <= owed { 0 } else { 42 }
}

// Running, 1, where nothing is owed; else paused, 0.
fn state_of(owed: u64) -> u64
    ensures { result ≡ state_of owed }
{
    u64::from(owed == 0)
}
