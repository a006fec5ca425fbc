// The evidence file, put into a lent room: header, records, trailer.
ghost use Rattle.std.specs.Prelude.{◌≡◌, ◌++◌, ◌+◌, ◌-◌, ◌*◌, ◌≤◌, ◌<◌, length};
ghost use Rattle.laws.specs.Stored.{stored};
ghost use Rattle.evidence.specs.Blocks.{block, front, blocks_for};
ghost use Rattle.evidence_builder.specs.Files.{blanks, marks, institution_of, header_block, record_front, trailer_block};

use evidence::blocks;
use evidence::blocks::{BLOCK, FRONT};
use numbers::base_ten;
use text::parts;

// Bytes of a record's marks.
const MARKS: usize = 8;

// Bytes of a record's number, which follows the marks, and of a count of records.
const NUMBER: usize = 7;

// Bytes of both.
const BOTH: usize = 15;

// Bytes of an institution code, and of the spaces behind it.
const CODE: usize = 10;

// The number that a trailer has.
const LAST: u64 = 9999999;

// As many spaces.
fn blanks(room: &mut [u8], at: usize, size: usize)
    requires { at + size ≤ length room.old }
    ensures { room.new ≡ stored at (blanks size) room.old }
{
    room[at..at + size].fill(b' ');
}

// AE1112 and the record's mark.
#[tactic(auto, unfolding(crate::specs::Files::marks))]
fn marks(room: &mut [u8], at: usize, mark: u8)
    requires { at + 8 ≤ length room.old }
    ensures { room.new ≡ stored at (marks mark) room.old }
{
    let bytes = [b'A', b'E', b'1', b'1', b'1', b'2', mark, mark];
    parts::put(room, at, &bytes);
}

// An institution code in 20 bytes.
fn institution(room: &mut [u8], at: usize, code: &[u8])
    requires code_len { length code.now ≡ 10 }
    requires at_in_bounds { at + 20 ≤ length room.old }
    ensures { room.new ≡ stored at (institution_of code.now) room.old }
{
    parts::put(room, at, code);
    blanks(room, at + CODE, CODE);
}

// The first block: how many records will follow.
pub fn put_header(room: &mut [u8], date: &[u8], code: &[u8], n: usize)
    requires date_len { length date.now ≡ 8 }
    requires code_len { length code.now ≡ 10 }
    requires in_bounds { 1024 ≤ length room.old }
    ensures { room.new ≡ stored 0 (header_block date.now code.now n) room.old }
{
    marks(room, 0, b'1');
    base_ten::put_digits(room, MARKS, NUMBER, 0);
    parts::put(room, BOTH, date);
    institution(room, 23, code);
    base_ten::put_digits(room, 43, NUMBER, n as u64);
    blanks(room, 50, 974);
}

// Items 1 to 5 of record n.
pub fn put_front(room: &mut [u8], at: usize, code: &[u8], n: usize)
    requires code_len { length code.now ≡ 10 }
    requires at_in_bounds { at + 45 ≤ length room.old }
    ensures { room.new ≡ stored at (record_front code.now n) room.old }
{
    marks(room, at, b'2');
    base_ten::put_digits(room, at + MARKS, NUMBER, n as u64);
    blanks(room, at + BOTH, CODE);
    institution(room, at + 25, code);
}

// Record n, of a unit that says so many bytes of evidence: its front, the unit, its filler.
pub fn put_record(room: &mut [u8], at: usize, code: &[u8], n: usize, unit: &[u8], said: usize)
    requires code_len { length code.now ≡ 10 }
    requires unit_len { length unit.now ≡ 74 + said }
    requires said_bound { said < 10000000 }
    requires block_in_bounds { at + blocks_for said * block ≤ length room.old }
    ensures { room.new ≡ stored at (record_front code.now n ++ (unit.now ++ blanks (blocks_for said * block - (front + said)))) room.old }
{
    let size = FRONT + said;
    put_front(room, at, code, n);
    parts::put(room, at + 45, unit);
    blanks(room, at + size, blocks::blocks_for(said) * BLOCK - size);
}

// The last block, behind n records of so many blocks.
pub fn put_trailer(room: &mut [u8], at: usize, code: &[u8], n: usize, blocks: usize)
    requires code_len { length code.now ≡ 10 }
    requires at_in_bounds { at + 1024 ≤ length room.old }
    ensures { room.new ≡ stored at (trailer_block code.now n blocks) room.old }
{
    marks(room, at, b'3');
    base_ten::put_digits(room, at + MARKS, NUMBER, LAST);
    institution(room, at + BOTH, code);
    base_ten::put_digits(room, at + 35, NUMBER, n as u64);
    base_ten::put_digits(room, at + 42, 10, blocks as u64);
    blanks(room, at + 52, 972);
}
