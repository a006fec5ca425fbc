// The counts that header and trailer say, and the keys.
ghost use Rattle.std.specs.Prelude.{◌≡◌, ◌≤◌};
ghost use Rattle.laws.specs.Least.{least};
ghost use Rattle.kinds.specs.Kinds.{limit};
ghost use Rattle.keys.specs.Keys.{repeats_in};
ghost use Rattle.keys.specs.Keyed.{key_of};
ghost use Rattle.answers.specs.Refusing.{answer_of};
ghost use Rattle.evidence.specs.Blocks.{blocks_in, records_in};
ghost use Rattle.evidence.specs.Reading.{count_told, counts_told, repeat_told};

use crate::blocks;
use answers::refusing::Refusal;
use keys::keyed::Keys;
use keys::stands::Spacing;
use numbers::base_ten;
use text::parts;

// The key: items 6 to 9.
pub const KEY: Spacing = Spacing {
    stride: 0,
    offset: 45,
    size: 61,
};

#[tactic(auto, unfolding(crate::specs::Reading::count_told))]
fn count_tells(said: bool, rec: u64, item: u64) -> Result<(), Refusal>
    ensures { answer_of result ≡ count_told said rec item }
{
    if !said {
        return Err(Refusal::Total(rec, item));
    }
    Ok(())
}

// Item 6 of the header, then items 5 and 6 of the trailer.
pub(crate) fn counts_tell(file: &[u8], n: usize) -> Result<(), Refusal>
    requires bound { 2 ≤ blocks_in file.now }
    requires n_le_limit { n ≤ limit }
    requires n_value { n ≡ records_in file.now }
    ensures { answer_of result ≡ counts_told file.now }
{
    let header = blocks::block(file, 0);
    let trailer = blocks::block(file, blocks::count(file) - 1);
    let records = n as u64;
    let number = records + 1;
    let held = (blocks::count(file) - 2) as u64;
    count_tells(base_ten::says(parts::part(header, 43, 7), records), 0, 6)?;
    count_tells(
        base_ten::says(parts::part(trailer, 35, 7), records),
        number,
        5,
    )?;
    count_tells(
        base_ten::says(parts::part(trailer, 42, 10), held),
        number,
        6,
    )
}

// The first record whose key is an earlier one's.
#[tactic(auto, unfolding(crate::specs::Reading::repeat_told))]
pub fn keys_tell(keys: Keys) -> Result<(), Refusal>
    requires { keys.n ≤ limit }
    ensures { answer_of result ≡ repeat_told keys.entry.n (least (repeats_in (key_of keys.entry)) keys.entry.n) }
{
    if let Some(i) = keys.first_repeat() {
        return Err(Refusal::Repeated((i + 1) as u64, 6));
    }
    Ok(())
}
