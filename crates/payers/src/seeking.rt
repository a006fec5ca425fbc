// The search for a payer that an earlier member has: some members' payers are held, and each member is compared with them.
ghost use Rattle.std.specs.Prelude.{cond, ◌≡◌, ◌+◌, ◌*◌, ◌≤◌, ◌<◌, length};
ghost use Rattle.laws.specs.Stored.{stored};
ghost use Rattle.keys.specs.Chains.{slots, links_with, no_links};
ghost use Rattle.payers.specs.Turns.{held, placed, held_in, seen, goes_on, next_in, sought_place, sought_room, joined_links, sought_links, SeekAsks};

use crate::turns::Place;
use keys::chains;
use keys::keyed::Keys;
use keys::linked::Linked;
use keys::stands::Spacing;
use text::parts;

// How many payers are held at a time.
pub const HELD: usize = 2048;

// Where they stand: one behind the other.
const PAYERS: Spacing = Spacing {
    stride: 20,
    offset: 0,
    size: 20,
};

// How many are held before member `at` is looked at.
fn held_in(place: Place) -> usize
    requires { place.from ≤ place.at }
    ensures { result ≡ held_in place }
{
    HELD.min(place.at - place.from)
}

// The payer is one of those that are held.
fn seen<'a>(place: Place, payer: &[u8], links: &'a [u16], room: &'a [u8]) -> bool
    requires { SeekAsks place links.now room.now }
    ensures { result ≡ seen place payer.now room.now }
{
    let payers = Linked {
        keys: Keys {
            s: room,
            places: &[],
            spacing: PAYERS,
            n: held_in(place),
        },
        links,
    };
    payers.last(payer).is_some()
}

// The payer is held behind the i that are.
fn hold(i: usize, payer: &[u8], links: &mut [u16], room: &mut [u8])
    requires i_lt_held { i < held }
    requires held_in_bounds { slots + held ≤ length links.old }
    requires held_in_bounds_2 { 20 * held ≤ length room.old }
    requires payer_len { length payer.now ≡ 20 }
    ensures links_after { links.new ≡ links_with payer.now i links.old }
    ensures room_after { room.new ≡ stored (20 * i) payer.now room.old }
{
    parts::put(room, 20 * i, payer);
    chains::join(payer, i, links);
}

// A payer that was not found is held, if there is room.
fn hold_new(place: Place, found: bool, payer: &[u8], links: &mut [u16], room: &mut [u8])
    requires seek_asks { SeekAsks place links.old room.old }
    requires payer_len { length payer.now ≡ 20 }
    requires found_value { found ≡ seen place payer.now room.old }
    ensures links_after { links.new ≡ joined_links place payer.now links.old room.old }
    ensures room_after { room.new ≡ sought_room place payer.now room.old }
{
    if !found && place.at - place.from < HELD {
        hold(held_in(place), payer, links, room);
    }
}

// The next member; past a payer that was found nothing matters.
fn moved_on(place: Place, found: bool) -> Place
    requires { place.at < place.end }
    ensures { result ≡ cond found (placed place.from place.at place.at) (placed place.from (place.at + 1) place.end) }
{
    if found {
        return Place {
            end: place.at,
            ..place
        };
    }
    Place {
        at: place.at + 1,
        ..place
    }
}

// All were compared with those that are held, and there are more than these.
fn goes_on(place: Place) -> bool
    requires { place.from ≤ place.end }
    ensures { result ≡ goes_on place }
{
    place.end <= place.at && HELD < place.end - place.from
}

// At the end the next members are held, if there are more.
fn next_in(place: Place, links: &mut [u16]) -> Place
    requires { place.from ≤ place.end }
    ensures value { result ≡ next_in place }
    ensures links_after { links.new ≡ cond (goes_on place) (no_links links.old) links.old }
{
    if goes_on(place) {
        chains::clear(links);
        let from = place.from + HELD;
        return Place {
            from,
            at: from,
            ..place
        };
    }
    place
}

// One member's turn in the search. That a payer has twenty bytes is told to the caller too, since its proof needs it.
pub fn seek(place: Place, payer: [u8; 20], links: &mut [u16], room: &mut [u8]) -> Place
    requires { SeekAsks place links.old room.old }
    ensures value { result ≡ sought_place place payer room.old }
    ensures links_after { links.new ≡ sought_links place payer links.old room.old }
    ensures room_after { room.new ≡ sought_room place payer room.old }
    ensures payer_len { length payer ≡ 20 }
{
    let found = seen(place, &payer, links, room);
    hold_new(place, found, &payer, links, room);
    next_in(moved_on(place, found), links)
}
