// No two data records share a key.
ghost use Rattle.std.specs.Prelude.{◌≡◌, [], ◌+◌, ◌≤◌, ◌<◌};
ghost use Rattle.kinds.specs.Kinds.{limit};
ghost use Rattle.records.specs.Records.{count_of, data_of};
ghost use Rattle.answers.specs.Refusing.{answer_of};
ghost use Rattle.reader.specs.Keys.{spacing_of, keys_tell};

use answers::refusing::Refusal;
use keys::keyed::Keys;
use keys::stands::Spacing;
use kinds::of_files::{Fixed, Kind};
use records::listed;

// Where the keys of a file stand: one in each data record.
pub fn spacing(kind: Kind) -> Spacing
    requires { (spacing_of kind).offset < 0x10000000000000000 }
    ensures { result ≡ spacing_of kind }
{
    let fixed = Fixed::of(kind);
    Spacing {
        stride: fixed.size,
        offset: fixed.size + fixed.key.start,
        size: fixed.key.size,
    }
}

// The keys of a file.
pub fn keys_of(kind: Kind, file: &[u8]) -> Keys<'_>
    requires { 2 ≤ count_of kind file.now }
    ensures s_value { result.s.now ≡ file.now }
    ensures places_value { result.places.now ≡ [] }
    ensures spacing_value { result.spacing ≡ spacing_of kind }
    ensures n_value { result.n ≡ data_of kind file.now }
{
    Keys {
        s: file,
        places: &[],
        spacing: spacing(kind),
        n: listed::data_count(kind, file),
    }
}

// The smallest record number that repeats an earlier key.
pub(crate) fn keys_tell(kind: Kind, file: &[u8]) -> Result<(), Refusal>
    requires bound { 2 ≤ count_of kind file.now }
    requires file_bound { count_of kind file.now ≤ limit + 2 }
    ensures { answer_of result ≡ keys_tell kind file.now }
{
    if let Some(i) = keys_of(kind, file).first_repeat() {
        return Err(Refusal::Repeated((i + 1) as u64, Fixed::of(kind).key.item));
    }
    Ok(())
}
