// The bodies of a day, one behind the other: names at a fixed distance, and a list of lengths.
ghost use Rattle.std.specs.Prelude.{◌≡◌, ◌*◌, ◌≤◌, length};
ghost use Rattle.laws.specs.Sum.{sum};
ghost use Rattle.keys.specs.Keyed.{key_of};
ghost use Rattle.answers.specs.Refusing.{answer_of};
ghost use Rattle.answers.specs.OfDay.{day_answer_of};
ghost use Rattle.day.specs.Contents.{most, length_end};
ghost use Rattle.day.specs.Bodies.{size_at, Short, name_told, read_daily, body_told, bodies_told, list_told};

use crate::contents::NAME;
use answers::of_day::OfDay;
use answers::refusing::Refusal;
use keys::keyed::Keys;
use kinds::of_files;
use numbers::base_ten;
use reader::reading;
use text::parts;

// Where item 4 of a header stands.
const NAME_AT: usize = 19;

// The lengths together.
pub(crate) fn total(lengths: &[u64]) -> u64
    requires few { length lengths.now ≤ most }
    requires short { Short (size_at lengths.now) (length lengths.now) }
    ensures value { result ≡ sum (size_at lengths.now) (length lengths.now) }
    ensures upper_bound { result ≤ length lengths.now * length_end }
{
    lengths.iter().sum()
}

fn name_tells(name: &[u8], body: &[u8]) -> Result<(), Refusal>
    requires { 27 ≤ length body.now }
    ensures { answer_of result ≡ name_told name.now body.now }
{
    if parts::part(body, NAME_AT, NAME) != name {
        return Err(Refusal::Disagrees(0, 4));
    }
    Ok(())
}

// As reading it, of kinds that go into a day file; all others are 1.
fn read_daily(kind: u64, body: &[u8]) -> Result<(), Refusal>
    ensures { answer_of result ≡ read_daily kind body.now }
{
    let Some(daily) = of_files::daily_of(kind) else {
        return Err(Refusal::UnknownKind);
    };
    reading::read_as(daily, body)
}

// One body: reading it as the kind that its name says, then its name.
fn body_tells(name: &[u8], body: &[u8]) -> Result<(), Refusal>
    ensures { answer_of result ≡ body_told name.now body.now }
{
    read_daily(base_ten::word(name), body)?;
    name_tells(name, body)
}

// Body after body.
fn bodies_tell(names: Keys, lengths: &[u64], bodies: &[u8]) -> Result<(), OfDay>
    requires few { length lengths.now ≤ most }
    requires one_each { names.n ≡ length lengths.now }
    requires n_in_bounds { sum (size_at lengths.now) (length lengths.now) ≤ length bodies.now }
    ensures { day_answer_of result ≡ bodies_told (key_of names.entry) (size_at lengths.now) (length lengths.now) bodies.now }
{
    let mut at = 0;
    for (i, length) in lengths.iter().enumerate() {
        let size = *length as usize;
        if let Err(refusal) = body_tells(names.key(i), parts::part(bodies, at, size)) {
            return Err(OfDay::Body(i as u64 + 1, refusal));
        }
        at += size;
    }
    Ok(())
}

// Whether the lengths make up the bodies, then whether all names differ, then body after body.
fn counted_tell(names: Keys, lengths: &[u64], bodies: &[u8]) -> Result<(), OfDay>
    requires few { length lengths.now ≤ most }
    requires one_each { names.n ≡ length lengths.now }
    requires short { Short (size_at lengths.now) (length lengths.now) }
    ensures { day_answer_of result ≡ list_told (key_of names.entry) (size_at lengths.now) (length lengths.now) bodies.now }
{
    if total(lengths) != bodies.len() as u64 {
        return Err(OfDay::Lengths);
    }
    if let Some(i) = names.first_repeat() {
        return Err(OfDay::SameName(i as u64 + 1));
    }
    bodies_tell(names, lengths, bodies)
}

// The same of a list whose front has a length for each name.
pub fn list_tells(names: Keys, lengths: &[u64], bodies: &[u8]) -> Result<(), OfDay>
    requires few { names.n ≤ most }
    requires enough { names.n ≤ length lengths.now }
    requires short { Short (size_at lengths.now) names.n }
    ensures { day_answer_of result ≡ list_told (key_of names.entry) (size_at lengths.now) names.entry.n bodies.now }
{
    counted_tell(names, &lengths[..names.n], bodies)
}
