// Where a search over the board stands, and the member at which it ended.
ghost use Rattle.std.specs.Prelude.{◌≡◌};
ghost use Rattle.payers.specs.Turns.{placed, member_in};

// Where a search stands: member `at` is next, none from `end` on; members `from` on are held.
#[derive(Clone, Copy)]
pub struct Place {
    pub from: usize,
    pub at: usize,
    pub end: usize,
}

impl Place {
    // Where a search among so many members begins.
    pub fn first(many: usize) -> Self
        ensures { result ≡ placed 0 0 many }
    {
        Place {
            from: 0,
            at: 0,
            end: many,
        }
    }
}

// The number of member k, from 1; none where there are no more than k.
#[tactic(auto, unfolding(crate::specs::Turns::member_in))]
pub fn number_in(many: usize, k: usize) -> Option<u64>
    ensures { result ≡ member_in many k }
{
    if k < many { Some(k as u64 + 1) } else { None }
}
