// Writing an evidence file: decided first, then stored.
ghost use Rattle.std.specs.Prelude.{◌≡◌, ◌+◌, ◌*◌, ◌≤◌, length};
ghost use Rattle.laws.specs.Joined.{joined};
ghost use Rattle.laws.specs.Stored.{stored};
ghost use Rattle.answers.specs.Storing.{stored_by};
ghost use Rattle.evidence.specs.Blocks.{block, most_blocks};
ghost use Rattle.evidence_builder.specs.Units.{blocks_to};
ghost use Rattle.evidence_builder.specs.Files.{record_of};
ghost use Rattle.evidence_writer.specs.Writing.{write_of, write_after, Whole};

use crate::deciding;
use answers::refusing::Refusal;
use evidence::blocks;
use evidence::blocks::BLOCK;
use evidence_builder::files;
use evidence_units::items;
use evidence_units::items::ITEMS;
use text::parts;

// Record after record of n units, behind the header.
fn store_records(x: &[u8], code: &[u8], n: usize, room: &mut [u8])
    requires code_len { length code.now ≡ 10 }
    requires whole { Whole x.now n }
    requires n_bound { blocks_to x.now n ≤ most_blocks }
    requires block_in_bounds { block + blocks_to x.now n * block ≤ length room.old }
    ensures { room.new ≡ stored block (joined (record_of code.now x.now) n) room.old }
{
    let mut p = 0;
    let mut at = BLOCK;
    for i in 0..n {
        let said = items::said(x, p);
        files::put_record(room, at, code, i + 1, parts::part(x, p, ITEMS + said), said);
        p += ITEMS + said;
        at += blocks::blocks_for(said) * BLOCK;
    }
}

// Writes the file at the front of the room and says how long it is, or says why not and leaves the room as it was.
pub fn write(
    exempt: bool,
    date: &[u8],
    code: &[u8],
    x: &[u8],
    room: &mut [u8],
) -> Result<usize, Refusal>
    ensures value { stored_by result ≡ write_of exempt date.now code.now x.now (length room.old) }
    ensures room_after { room.new ≡ write_after exempt date.now code.now x.now room.old }
{
    let units = deciding::decide(exempt, date, code, x)?;
    let size = (units.blocks + 2) * BLOCK;
    if room.len() < size {
        return Err(Refusal::ShortRoom);
    }
    files::put_header(room, date, code, units.count);
    store_records(x, code, units.count, room);
    files::put_trailer(room, size - BLOCK, code, units.count, units.blocks);
    Ok(size)
}
