// Keys in a slice, with what says where they stand.
ghost use Rattle.keys.specs.Stands.{Inside};

use crate::chains::LINKS;
use crate::linked::Linked;
use crate::stands::Spacing;
use crate::{chains, stands};

// n keys of s, each of which lies within it.
#[derive(Clone, Copy)]
pub struct Keys<'a> {
    pub s: &'a [u8],
    pub places: &'a [u32],
    pub spacing: Spacing,
    pub n: usize,
    pub ghost inside: { Inside places.now spacing s.now n },
}

impl<'a> Keys<'a> {
    ghost use Rattle.std.specs.Prelude.{◌≡◌, ◌+◌, ◌≤◌, ◌<◌, length};
    ghost use Rattle.laws.specs.Least.{least};
    ghost use Rattle.kinds.specs.Kinds.{limit};
    ghost use Rattle.keys.specs.Keys.{repeats_in, below};
    ghost use Rattle.keys.specs.Keyed.{key_of};
    ghost use Rattle.keys.specs.Chains.{slots, Chained, no_links, links_of};

    // Key i.
    pub fn key(&self, i: usize) -> &'a [u8]
        requires { i < self.now.n }
        ensures { result.now ≡ key_of self.now i }
    {
        stands::key_in(self.s, self.places, self.spacing, i)
    }

    // They are chained, in links of no key.
    pub fn chain(&self, links: &mut [u16])
        requires n_bound { self.now.n ≤ 65535 }
        requires n_in_bounds { slots + self.now.n ≤ length links.old }
        requires links_value { links.old ≡ no_links links.old }
        ensures links_after { links.new ≡ links_of (key_of self.now) self.now.n links.old }
        ensures chained { Chained (key_of self.now) self.now.n links.new }
    {
        for i in 0..self.n {
            chains::join(self.key(i), i, links);
        }
    }

    // The first key that is the same as an earlier one, of as many as a file may have.
    pub fn first_repeat(&self) -> Option<usize>
        requires { self.now.n ≤ limit }
        ensures { result ≡ below self.now.n (least (repeats_in (key_of self.now)) self.now.n) }
    {
        let mut links = [0u16; LINKS];
        self.chain(&mut links);
        Linked {
            keys: *self,
            links: &links,
        }
        .first_repeat()
    }
}
