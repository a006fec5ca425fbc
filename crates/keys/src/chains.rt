// Keys chained by their slots, in memory that the caller lends: a search for a key costs the length of one chain.
// First in the links, for each slot, the last key that goes to it; then, for each key, the one before it in the same slot.
// Kept: all are counted from 1, and 0 is none, since the links are memory of a fixed size.
ghost use Rattle.std.specs.Prelude.{◌≡◌, ◌+◌, ◌<◌, length};
ghost use Rattle.keys.specs.Chains.{slots, slot_of, links_with, no_links};

use crate::hashes;
use kinds::of_files::LIMIT;

// Slots for up to some two thousand keys: a prime, of those near it the one that spreads payers numbered one after another best.
pub const SLOTS: usize = 4051;

// The links of the keys of a file.
pub const LINKS: usize = SLOTS + LIMIT;

// The slot of a key.
pub(crate) fn slot_of(key: &[u8]) -> usize
    ensures value { result ≡ slot_of key.now }
    ensures upper_bound { result < slots }
{
    hashes::hash(key) as usize % SLOTS
}

// No key is chained.
pub fn clear(links: &mut [u16])
    ensures { links.new ≡ no_links links.old }
{
    links.fill(0);
}

// A key joins the i that are chained: it is the last of its slot, and the one before it is the last so far.
pub fn join(key: &[u8], i: usize, links: &mut [u16])
    requires i_bound { i < 65535 }
    requires i_in_bounds { slots + i < length links.old }
    ensures { links.new ≡ links_with key.now i links.old }
{
    let b = slot_of(key);
    links[SLOTS + i] = links[b];
    links[b] = (i + 1) as u16;
}
