// Reading a day file: 30, 31, 32, 33; how many bodies it has, and where each lies.
ghost use Rattle.std.specs.Prelude.{◌≡◌, IfOk};
ghost use Rattle.answers.specs.OfDay.{day_answer_of, counted_by, shown_by};
ghost use Rattle.day.specs.Reading.{read_of, counted_of, shown_of};

use crate::bodies;
use crate::contents::Contents;
use answers::lying;
use answers::lying::Part;
use answers::of_day::OfDay;
use text::parts;

// The contents of any bytes that are a day file.
fn look(file: &[u8]) -> Result<Contents<'_>, OfDay>
    ensures told { day_answer_of result ≡ read_of file.now }
    ensures of { IfOk result (λ c. c.file ≡ file.entry) }
{
    let Some(contents) = Contents::of(file) else {
        return Err(OfDay::Contents);
    };
    let lengths = contents.lengths();
    bodies::list_tells(
        contents.names(),
        &lengths[..contents.n],
        parts::rest(file, contents.end()),
    )?;
    Ok(contents)
}

// Reads any bytes as a day file, and says how many bodies it has.
pub fn read(file: &[u8]) -> Result<usize, OfDay>
    ensures { counted_by result ≡ counted_of file.now }
{
    Ok(look(file)?.n)
}

// Where a body of any bytes lies, or none of that number; bodies count from 1.
pub fn body(file: &[u8], number: u64) -> Result<Option<Part>, OfDay>
    ensures { shown_by result ≡ shown_of file.now number }
{
    let contents = look(file)?;
    if !lying::is_one(number, contents.n as u64) {
        return Ok(None);
    }
    let i = (number - 1) as usize;
    let lengths = contents.lengths();
    Ok(Some(Part {
        start: contents.end() + bodies::total(&lengths[..i]) as usize,
        size: lengths[i] as usize,
    }))
}
