// No two bodies share a key.
ghost use Rattle.std.specs.Prelude.{◌≡◌, ◌≤◌};
ghost use Rattle.kinds.specs.Kinds.{limit};
ghost use Rattle.answers.specs.Refusing.{answer_of};
ghost use Rattle.builder.specs.Records.{body_count};
ghost use Rattle.writer.specs.Writing.{body_spacing, keys_told};

use answers::refusing::Refusal;
use keys::keyed::Keys;
use keys::stands::Spacing;
use kinds::of_files::{Fixed, Kind};

// Where the keys stand in the bodies: one in each.
fn body_spacing(kind: Kind) -> Spacing
    ensures { result ≡ body_spacing kind }
{
    let fixed = Fixed::of(kind);
    Spacing {
        stride: fixed.body,
        offset: fixed.key.start - Fixed::FRONT,
        size: fixed.key.size,
    }
}

// The smallest record number that repeats an earlier key, by the keys where they lie in the bodies.
pub(crate) fn keys_tell(kind: Kind, bodies: &[u8], n: usize) -> Result<(), Refusal>
    requires n_value { n ≡ body_count kind bodies.now }
    requires n_le_limit { n ≤ limit }
    ensures { answer_of result ≡ keys_told kind bodies.now }
{
    let keys = Keys {
        s: bodies,
        places: &[],
        spacing: body_spacing(kind),
        n,
    };
    if let Some(i) = keys.first_repeat() {
        return Err(Refusal::Repeated((i + 1) as u64, Fixed::of(kind).key.item));
    }
    Ok(())
}
