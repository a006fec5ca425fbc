// Keys whose chains are linked: a search for one goes down the chain of its slot.
ghost use Rattle.keys.specs.Chains.{Chained};
ghost use Rattle.keys.specs.Keyed.{key_of};

use crate::chains;
use crate::chains::SLOTS;
use crate::keyed::Keys;

#[derive(Clone, Copy)]
pub struct Linked<'a> {
    pub keys: Keys<'a>,
    pub links: &'a [u16],
    pub ghost chained: { Chained (key_of keys) keys.n links.now },
}

impl<'a> Linked<'a> {
    ghost use Rattle.std.specs.Prelude.{◌≡◌, ◌≤◌, ◌<◌, length, get_or, replicate};
    ghost use Rattle.laws.specs.Least.{least};
    ghost use Rattle.keys.specs.Keys.{repeats_in, has_key_in, place_in, places_in, below, from_one, counted};
    ghost use Rattle.keys.specs.Keyed.{key_of};
    ghost use Rattle.keys.specs.Chains.{last, slot_of, Link};

    // The key that a link says.
    fn link(&self, at: usize) -> Option<usize>
        requires { at < length self.now.links.now }
        ensures { result ≡ from_one (get_or self.now.links.now at 0) }
    {
        usize::from(self.links[at]).checked_sub(1)
    }

    // The last key from a link on that is this one, along the chain.
    fn along(&self, key: &[u8], from: Option<usize>) -> Option<usize>
        requires { Link (key_of self.now.keys) self.now.keys.n (slot_of key.now) (counted from) }
        ensures { result ≡ from_one (last (has_key_in (key_of self.now.keys) key.now) (counted from)) }
    {
        let mut at = from;
        while let Some(i) = at {
            if self.keys.key(i) == key {
                return at;
            }
            at = self.link(SLOTS + i);
        }
        None
    }

    // The last key that is this one.
    pub fn last(&self, key: &[u8]) -> Option<usize>
        ensures { result ≡ from_one (last (has_key_in (key_of self.now.keys) key.now) self.now.keys.n) }
    {
        self.along(key, self.link(chains::slot_of(key)))
    }

    // The last key before key i that is the same.
    pub fn before(&self, i: usize) -> Option<usize>
        requires { i < self.now.keys.n }
        ensures { result ≡ from_one (last (has_key_in (key_of self.now.keys) (key_of self.now.keys i)) i) }
    {
        self.along(self.keys.key(i), self.link(SLOTS + i))
    }

    // The first key that is the same as an earlier one.
    // Kept: left by its label, a form that is asked for (docs/PROMISES.md, 'Language forms').
    pub fn first_repeat(&self) -> Option<usize>
        ensures { result ≡ below self.now.keys.n (least (repeats_in (key_of self.now.keys)) self.now.keys.n) }
    {
        'search: {
            for i in 0..self.keys.n {
                let key = self.keys.key(i);
                let mut at = self.link(SLOTS + i);
                while let Some(j) = at {
                    if self.keys.key(j) == key {
                        break 'search Some(i);
                    }
                    at = self.link(SLOTS + j);
                }
            }
            None
        }
    }

    // The first key that is this one: it is met last.
    pub fn place(&self, key: &[u8]) -> Option<usize>
        ensures { result ≡ below self.now.keys.n (place_in (key_of self.now.keys) self.now.keys.n key.now) }
    {
        let mut found = None;
        let mut at = self.link(chains::slot_of(key));
        while let Some(i) = at {
            if self.keys.key(i) == key {
                found = at;
            }
            at = self.link(SLOTS + i);
        }
        found
    }

    // For each of the others its place among these keys, as far as the list goes, and how many these are where it has none; all else in the list stays 0.
    // Kept: numbers, since the list is memory of a fixed size.
    pub fn places(&self, others: Keys, list: &mut [u16])
        requires n_bound { self.now.keys.n ≤ 65535 }
        requires list_value { list.old ≡ replicate (length list.old) 0 }
        ensures { list.new ≡ places_in (key_of self.now.keys) self.now.keys.n (key_of others.entry) others.entry.n (length list.old) }
    {
        for j in 0..others.n.min(list.len()) {
            list[j] = self.place(others.key(j)).unwrap_or(self.keys.n) as u16;
        }
    }
}
