// Where the evidence of a record lies.
ghost use Rattle.std.specs.Prelude.{◌≡◌};
ghost use Rattle.evidence.specs.Lying.{shown_by, part_of};

use crate::blocks::{BLOCK, FRONT};
use crate::{blocks, reading};
use answers::lying;
use answers::lying::Part;
use answers::refusing::Refusal;
use kinds::of_files::LIMIT;

// The evidence of a record of any bytes, if there is one of that number; records count from 1.
pub fn part(exempt: bool, file: &[u8], number: u64) -> Result<Option<Part>, Refusal>
    ensures { shown_by result ≡ part_of exempt file.now number }
{
    let mut places = [0u32; LIMIT];
    let count = reading::look(exempt, file, &mut places)?;
    if !lying::is_one(number, count as u64) {
        return Ok(None);
    }
    let start = places[(number - 1) as usize] as usize;
    let size = blocks::length(file, start / BLOCK);
    Ok(Some(Part {
        start: start + FRONT,
        size,
    }))
}
