// Each record of an evidence file against its rows, its length and its filler.
ghost use Rattle.std.specs.Prelude.{◌≡◌, ◌++◌, ◌+◌, ◌*◌, ◌≤◌, ◌<◌, length, drop};
ghost use Rattle.laws.specs.Tabulate.{tabulate};
ghost use Rattle.kinds.specs.Kinds.{limit};
ghost use Rattle.answers.specs.Refusing.{answer_of};
ghost use Rattle.evidence.specs.Blocks.{most_blocks, blocks_in, last_block, next_of, records_in};
ghost use Rattle.evidence.specs.Stopping.{looked, looked_by};
ghost use Rattle.evidence.specs.Judged.{header_told, items_told, length_told, filler_told, block_told, records_told, good_to, byte_of, trailer_told};

use crate::blocks::{BLOCK, FRONT};
use crate::stopping::Stopped;
use crate::{blocks, lengths};
use answers::refusing::Refusal;
use evidence_rows::by_role;
use evidence_rows::by_role::NO_OWN;
use kinds::of_files::LIMIT;
use layout::judging;
use text::{characters, parts};

const C0089: u64 = 0x3030_3839;

pub(crate) fn header_tells(file: &[u8]) -> Result<(), Refusal>
    requires { 0 < blocks_in file.now }
    ensures { answer_of result ≡ header_told file.now }
{
    let header = blocks::block(file, 0);
    judging::judge_rows(by_role::header_rows(), NO_OWN, header, header, 0)
}

// Items 1 to 12 of the record that begins with block b.
fn items_tell(exempt: bool, file: &[u8], b: usize, number: u64) -> Result<(), Refusal>
    requires { b < blocks_in file.now }
    ensures { answer_of result ≡ items_told exempt file.now b number }
{
    let front = parts::part(file, b * BLOCK, FRONT);
    let header = blocks::block(file, 0);
    judging::judge_rows(by_role::data_rows(exempt), NO_OWN, front, header, number)
}

// Its length.
#[tactic(auto, unfolding(crate::specs::Judged::length_told, crate::specs::Blocks::kind_at, crate::specs::Blocks::next_of, crate::specs::Blocks::blocks_for))]
fn length_tells(exempt: bool, file: &[u8], b: usize, number: u64) -> Result<(), Refusal>
    requires b_bound { b < blocks_in file.now }
    requires file_bound { blocks_in file.now ≤ most_blocks + 2 }
    ensures { answer_of result ≡ length_told exempt file.now b number }
{
    let length = blocks::length(file, b);
    let kind = parts::byte(file, b * BLOCK + 106);
    let good = lengths::length_good(exempt, kind, length);
    if good && b + blocks::blocks_for(length) <= blocks::count(file) - 1 {
        return Ok(());
    }
    Err(Refusal::Broken(number, 12, lengths::C0103))
}

// Its filler, which lies inside the file where its length is good.
#[tactic(auto, unfolding(crate::specs::Judged::filler_told, crate::specs::Judged::filler_at, crate::specs::Blocks::next_of, crate::specs::Blocks::blocks_for, crate::specs::Blocks::blocks_in, text::specs::Characters::spaces))]
fn filler_tells(file: &[u8], b: usize, number: u64) -> Result<(), Refusal>
    requires b_bound { b < blocks_in file.now }
    requires file_bound { blocks_in file.now ≤ most_blocks + 2 }
    requires b_bound_2 { next_of file.now b ≤ last_block file.now }
    ensures { answer_of result ≡ filler_told file.now b number }
{
    let length = blocks::length(file, b);
    let size = FRONT + length;
    let filler = parts::part(
        file,
        b * BLOCK + size,
        blocks::blocks_for(length) * BLOCK - size,
    );
    if !characters::each(b' ', b' ', filler) {
        return Err(Refusal::Broken(number, 14, C0089));
    }
    Ok(())
}

// The whole record that begins with block b.
fn block_tells(exempt: bool, file: &[u8], b: usize, number: u64) -> Result<(), Refusal>
    requires b_bound { b < blocks_in file.now }
    requires file_bound { blocks_in file.now ≤ most_blocks + 2 }
    ensures { answer_of result ≡ block_told exempt file.now b number }
{
    items_tell(exempt, file, b, number)?;
    length_tells(exempt, file, b, number)?;
    filler_tells(file, b, number)
}

// How many records there are, by their lengths, or how many are good before a refusal; the places hold the first byte of each
// that is good.
pub(crate) fn records_tell(exempt: bool, file: &[u8], places: &mut [u32]) -> Result<usize, Stopped>
    requires bound { 2 ≤ blocks_in file.now }
    requires file_bound { blocks_in file.now ≤ most_blocks + 2 }
    requires places_len { length places.old ≡ limit }
    ensures value { looked_by result ≡ looked (records_told exempt file.now) (good_to exempt file.now) }
    ensures places_after { places.new ≡ tabulate (byte_of file.now) (good_to exempt file.now) ++ drop (good_to exempt file.now) places.old }
{
    let last = blocks::count(file) - 1;
    let mut b = 1;
    for i in 0..LIMIT {
        if last <= b {
            return Ok(i);
        }
        if let Err(refusal) = block_tells(exempt, file, b, (i + 1) as u64) {
            return Err(Stopped { refusal, good: i });
        }
        places[i] = (b * BLOCK) as u32;
        b += blocks::blocks_for(blocks::length(file, b));
    }
    if b < last {
        return Err(Stopped {
            refusal: Refusal::TooMany,
            good: LIMIT,
        });
    }
    Ok(LIMIT)
}

// The last block, behind n records.
pub(crate) fn trailer_tells(file: &[u8], n: usize) -> Result<(), Refusal>
    requires bound { 2 ≤ blocks_in file.now }
    requires n_le_limit { n ≤ limit }
    requires n_value { n ≡ records_in file.now }
    ensures { answer_of result ≡ trailer_told file.now }
{
    let header = blocks::block(file, 0);
    let trailer = blocks::block(file, blocks::count(file) - 1);
    judging::judge_rows(
        by_role::trailer_rows(),
        NO_OWN,
        trailer,
        header,
        (n + 1) as u64,
    )
}
