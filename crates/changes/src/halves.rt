// Two records of an EB11 that are the halves of one change.
#![tactic(auto, unfolding(crate::specs::Halves::changes, crate::specs::Halves::opposite, crate::specs::Halves::same_payer, crate::specs::Halves::moves, crate::specs::Halves::halves, crate::specs::Keyed::other_kind), using(laws::proofs::Positions::same_pointwise))]

ghost use Rattle.std.specs.Prelude.{◌≡◌, ◌≤◌, length};
ghost use Rattle.changes.specs.Halves.{changes, opposite, moves, halves, same_payer};
ghost use Rattle.changes.specs.Keyed.{other_kind, other_key};

use layout::items;
use numbers::base_ten;
use text::parts;

// The record says "CHNG".
pub(crate) fn changes(rec: &[u8]) -> bool
    requires { 120 ≤ length rec.now }
    ensures { result ≡ changes rec.now }
{
    base_ten::word(parts::part(rec, 85, 4)) == items::CHANGE
}

// Kinds "3" and "1", in either order.
fn opposite(a: u8, b: u8) -> bool
    ensures { result ≡ opposite a b }
{
    matches!((a, b), (b'3', b'1') | (b'1', b'3'))
}

// Another branch or another account.
fn moves(a: &[u8], b: &[u8]) -> bool
    requires in_bounds { 120 ≤ length a.now }
    requires in_bounds_2 { 120 ≤ length b.now }
    ensures { result ≡ moves a.now b.now }
{
    parts::part(a, 46, 7) != parts::part(b, 46, 7)
        || parts::part(a, 53, 16) != parts::part(b, 53, 16)
}

// The payer is the same.
fn one_payer(a: &[u8], b: &[u8]) -> bool
    requires in_bounds { 120 ≤ length a.now }
    requires in_bounds_2 { 120 ≤ length b.now }
    ensures { result ≡ same_payer a.now b.now }
{
    parts::part(a, 26, 20) == parts::part(b, 26, 20)
}

// The two records are the halves of one change.
pub(crate) fn halves(a: &[u8], b: &[u8]) -> bool
    requires in_bounds { 120 ≤ length a.now }
    requires in_bounds_2 { 120 ≤ length b.now }
    ensures { result ≡ halves a.now b.now }
{
    changes(a)
        && changes(b)
        && opposite(
            parts::byte(a, items::APPLICATION),
            parts::byte(b, items::APPLICATION),
        )
        && one_payer(a, b)
        && moves(a, b)
}

// The key that the other half must have: the other kind, and the same payer.
pub(crate) fn other_key(rec: &[u8]) -> [u8; 21]
    requires { 120 ≤ length rec.now }
    ensures { result ≡ other_key rec.now }
{
    let mut key = [other_kind(parts::byte(rec, items::APPLICATION)); 21];
    parts::put(&mut key, 1, parts::part(rec, 26, 20));
    key
}

// Of "3" it is "1", of "1" it is "3"; of "7" there is none, and no record is asked for it.
fn other_kind(kind: u8) -> u8
    ensures { result ≡ other_kind kind }
{
    if kind == b'3' { b'1' } else { b'3' }
}
