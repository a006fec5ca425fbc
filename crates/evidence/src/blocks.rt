// A file in blocks of 1,024 bytes.
ghost use Rattle.std.specs.Prelude.{◌≡◌, ◌+◌, ◌*◌, ◌<◌, length};
ghost use Rattle.evidence.specs.Blocks.{blocks_for, blocks_in, block_at, length_at};

use numbers::base_ten;
use text::parts;

pub const BLOCK: usize = 1024;

// Bytes of items 1 to 12, which stand before the evidence.
pub const FRONT: usize = 119;

// The most data blocks.
pub const MOST: usize = 4096;

// Blocks of a record with so many bytes of evidence.
#[tactic(auto, unfolding(crate::specs::Blocks::blocks_for))]
pub fn blocks_for(length: usize) -> usize
    requires { length < 10000000 }
    ensures { result ≡ blocks_for length }
{
    (FRONT + length).div_ceil(BLOCK)
}

// How many whole blocks there are.
#[tactic(auto, unfolding(crate::specs::Blocks::blocks_in))]
pub fn count(file: &[u8]) -> usize
    ensures { result ≡ blocks_in file.now }
{
    file.len() / BLOCK
}

// Block b.
#[tactic(auto, unfolding(crate::specs::Blocks::block_at, crate::specs::Blocks::blocks_in))]
pub fn block(file: &[u8], b: usize) -> &[u8]
    requires { b < blocks_in file.now }
    ensures result_value { result.now ≡ block_at file.now b }
    ensures result_len { length result.now ≡ 1024 }
{
    parts::part(file, b * BLOCK, BLOCK)
}

// How many bytes of evidence the record has that begins with block b.
#[tactic(auto, unfolding(crate::specs::Blocks::length_at, crate::specs::Blocks::blocks_in))]
pub fn length(file: &[u8], b: usize) -> usize
    requires { b < blocks_in file.now }
    ensures value { result ≡ length_at file.now b }
    ensures upper_bound { result < 10000000 }
{
    base_ten::number(parts::part(file, b * BLOCK + 112, 7)) as usize
}
