// Items that must be the same in two records.
ghost use Rattle.std.specs.Prelude.{◌≡◌, ℕ, ◌+◌, ◌≤◌, ◌<◌, length, get_or};
ghost use Rattle.tables.specs.Copied.{no_item};
ghost use Rattle.agreement.specs.Items.{Headers, compared_of, agrees, item_told, items_tell};

use kinds::of_files::Fixed;
use kinds::of_pairs;
use kinds::of_pairs::PairKind;
use tables::copied::Copied;
use text::parts;

const HEADER_ITEMS: [Copied; 4] = [
    Copied(3, 9, 10),
    Copied(5, 27, 6),
    Copied(6, 33, 7),
    Copied(7, 40, 16),
];

// The items in which the two headers must agree.
#[tactic(auto, unfolding(crate::specs::Items::header_items))]
pub(crate) fn header_items(pair: PairKind) -> &'static [Copied]
    ensures { result.now ≡ compared_of pair Headers }
{
    let n = Fixed::of(of_pairs::request_kind(pair)).agreed;
    &HEADER_ITEMS[..n]
}

#[tactic(auto, using(laws::proofs::Positions::same_pointwise), unfolding(crate::specs::Items::agrees))]
fn agrees(item: Copied, a: &[u8], b: &[u8]) -> bool
    requires item_in_bounds { item.1 + item.2 ≤ length a.now }
    requires item_in_bounds_2 { item.1 + item.2 ≤ length b.now }
    ensures { result ≡ agrees item a.now b.now }
{
    parts::part(a, item.1, item.2) == parts::part(b, item.1, item.2)
}

// The first of these items that is not the same in both.
pub(crate) fn first_differing(items: &[Copied], a: &[u8], b: &[u8]) -> Option<u64>
    requires by_index { (i : ℕ) → i < length items.now → (get_or items.now i no_item).1 + (get_or items.now i no_item).2 ≤ length a.now }
    requires by_index_2 { (i : ℕ) → i < length items.now → (get_or items.now i no_item).1 + (get_or items.now i no_item).2 ≤ length b.now }
    ensures { (number rec : ℕ) → 0 < number → item_told number rec result ≡ items_tell number rec items.now a.now b.now }
{
    for item in items {
        if !agrees(*item, a, b) {
            return Some(item.0);
        }
    }
    None
}
