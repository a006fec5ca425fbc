// What is told of names, lengths and bodies before anything is stored.
ghost use Rattle.std.specs.Prelude.{◌≡◌, ◌*◌, ◌≤◌, length, is_some, IfSome, IfOk};
ghost use Rattle.laws.specs.Least.{none};
ghost use Rattle.answers.specs.OfDay.{day_answer_of};
ghost use Rattle.day.specs.Contents.{form_for, width_for, entry_at, most};
ghost use Rattle.day.specs.Bodies.{size_at, Short};
ghost use Rattle.day_writer.specs.Writing.{names_good, too_long, given_good, decided};

use answers::of_day::OfDay;
use day::contents::{END, MOST, NAME};
use day::{bodies, contents};
use keys::keyed::Keys;
use keys::stands::Spacing;

// Where the names stand.
const NAMES: Spacing = Spacing {
    stride: NAME,
    offset: 0,
    size: NAME,
};

// There are n names of eight bytes, and not too many.
fn names_good(names: &[u8], n: usize) -> bool
    ensures { result ≡ names_good names.now n }
{
    n <= MOST && names.len() == n * NAME
}

// No length has more than six digits.
fn lengths_good(lengths: &[u64]) -> bool
    ensures { result ≡ none (too_long lengths.now) (length lengths.now) }
{
    !lengths.iter().any(|length| END <= *length)
}

// A name for each length, not too many, and no length too long; the bodies; and the form that the lengths need, with its
// digits of a length.
#[derive(Clone, Copy)]
pub(crate) struct Given<'a> {
    pub(crate) names: &'a [u8],
    pub(crate) lengths: &'a [u64],
    pub(crate) bodies: &'a [u8],
    pub(crate) form: u8,
    pub(crate) width: usize,
    ghost few: { length lengths.now ≤ most },
    ghost one_each: { length names.now ≡ length lengths.now * 8 },
    ghost short: { Short (size_at lengths.now) (length lengths.now) },
    ghost formed: { form ≡ form_for (size_at lengths.now) (length lengths.now) },
    ghost wide: { width ≡ width_for (size_at lengths.now) (length lengths.now) },
    ghost digits: { width ≤ 6 },
}

impl<'a> Given<'a> {
    fn of(names: &'a [u8], lengths: &'a [u64], bodies: &'a [u8]) -> Option<Self>
        ensures good { is_some result ≡ given_good names.now lengths.now }
        ensures of { IfSome result (λ g. (g.names ≡ names.entry) × (g.lengths ≡ lengths.entry) × (g.bodies ≡ bodies.entry)) }
    {
        if !names_good(names, lengths.len()) || !lengths_good(lengths) {
            return None;
        }
        let form = contents::form_for(lengths);
        Some(Given {
            names,
            lengths,
            bodies,
            form,
            width: contents::width(form),
        })
    }

    // Where the entries end.
    pub(crate) fn end(self) -> usize
        ensures value { result ≡ entry_at self.entry.width (length self.entry.lengths.now) }
        ensures upper_bound { result ≤ 227 }
    {
        contents::entry_at(self.width, self.lengths.len())
    }
}

// Everything but the room.
pub(crate) fn decide<'a>(
    names: &'a [u8],
    lengths: &'a [u64],
    bodies: &'a [u8],
) -> Result<Given<'a>, OfDay>
    ensures told { day_answer_of result ≡ decided names.now lengths.now bodies.now }
    ensures of { IfOk result (λ g. (g.names ≡ names.entry) × (g.lengths ≡ lengths.entry) × (g.bodies ≡ bodies.entry)) }
{
    let Some(given) = Given::of(names, lengths, bodies) else {
        return Err(OfDay::Contents);
    };
    let keys = Keys {
        s: names,
        places: &[],
        spacing: NAMES,
        n: lengths.len(),
    };
    bodies::list_tells(keys, lengths, bodies)?;
    Ok(given)
}
