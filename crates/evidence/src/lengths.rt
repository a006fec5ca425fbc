// How many bytes evidence may have.
ghost use Rattle.std.specs.Prelude.{◌≡◌};
ghost use Rattle.evidence.specs.Judged.{length_good};

use evidence_kinds::allowed;

// The code of a length that is not good.
pub const C0103: u64 = 0x3031_3033;

// So many bytes may be evidence of the kind.
#[tactic(auto, unfolding(crate::specs::Judged::length_good))]
pub fn length_good(exempt: bool, kind: u8, length: usize) -> bool
    ensures { result ≡ length_good exempt kind length }
{
    if exempt {
        return length == 0;
    }
    0 < length && length as u64 <= allowed::most(kind)
}
