// The directory that opening gave, with its record and bytes: 10, the part of a block, and the block of a rank.
#![tactic(auto)]

ghost use Rattle.std.specs.Prelude.{◌≡◌, ◌+◌, ◌*◌, ◌<◌, length};
ghost use Rattle.spec.specs.Answers.{broken};
ghost use Rattle.directory.specs.Parts.{part_of, Bracket};

use spec::Record;

// 10: the record cannot be that of these bytes and this directory.
pub fn broken(bytes: &[u8], directory: &[u32], record: Record) -> bool
    ensures { result ≡ broken bytes.now directory.now «record» }
{
    if words::block::LIMIT < record.row_count || record.row_count < record.populated {
        return true;
    }
    if record.data_start < 1 || 5 < record.data_start {
        return true;
    }
    let closing = 2 * words::block::block_count(record.row_count);
    if directory.len() < closing + 2 || directory[closing] != record.populated {
        return true;
    }
    bytes.len() < record.data_start as usize + directory[closing + 1] as usize + 2
}

// The data of a block by the directory's offsets; empty where these are no part of the file, since every question of an empty part has
// an answer. The directory stays one list of pairs, as it is lent.
pub fn part<'a>(bytes: &'a [u8], directory: &[u32], data_start: u32, block: usize) -> &'a [u8]
    requires { 2 * block + 3 < length directory.now }
    ensures { result.now ≡ part_of bytes.now directory.now data_start block }
{
    let from = data_start as usize + directory[2 * block + 1] as usize;
    let to = data_start as usize + directory[2 * block + 3] as usize;
    if to < from {
        return &[];
    }
    if bytes.len() < to {
        return &[];
    }
    &bytes[from..to]
}

// The last of the first blocks that has at most k rows before it. Empty blocks behind it have more, so they never take the last rank.
// By halves: std's partition_point, of chunks of two words, jumps on each half, which takes nearly three times as long.
pub fn find_block(directory: &[u32], blocks: usize, k: u32) -> usize
    requires { (0 < blocks) × (2 * blocks < length directory.now) }
    ensures { Bracket directory.now blocks k result }
{
    let mut base = 0;
    let mut left = blocks;
    while 1 < left {
        let half = left / 2;
        base += half * words::not_above(directory[2 * (base + half)], k);
        left -= half;
    }
    base
}
