// Opening a file: its record, and the directory of its blocks.
#![tactic(auto)]

ghost use Rattle.std.specs.Prelude.{◌≡◌, ◌-◌, ◌*◌, ◌≤◌, length};
ghost use Rattle.std.proofs.lemmas.List.Edits.{sets};
ghost use Rattle.spec.specs.Answers.{opened, OpenOwes, directory_in};
ghost use Rattle.spec.specs.Reading.{directory_length, verdict};
ghost use Rattle.opening.specs.Filling.{Accepts, same};

use spec::{Opened, Refusal};

// The record of an accepted file, with its directory at the front of directory; or a refusal, and directory as it was.
pub fn open(bytes: &[u8], directory: &mut [u32]) -> Opened
    ensures { OpenOwes bytes.now directory.old (opened result, directory.new) }
{
    let record = judging::judge(bytes)?;
    if directory.len() < 2 * (words::block::block_count(record.row_count) + 1) {
        return Err(Refusal::Room);
    }
    fill(bytes, record.row_count, directory);
    Ok(record)
}

// Writes the directory of an accepted file: up to each entry's block the pairs are equal, and so are those behind the last.
fn fill(bytes: &[u8], row_count: u32, directory: &mut [u32])
    requires accepts { Accepts bytes.now row_count }
    requires room { directory_length row_count ≤ length directory.old }
    ensures { directory.new ≡ sets directory.old 0 (directory_in (verdict bytes.now)) }
{
    let mut block = 0;
    let mut rows: u32 = 0;
    let mut size: u32 = 0;
    for four in judging::entries::table(bytes) {
        let x = words::entry::from_bytes(*four);
        let number = x.number as usize;
        let next = number + 1;
        put_pairs(directory, block, next, rows, size);
        block = next;
        rows += x.rows;
        size += words::block::data_size(x.rows as usize) as u32;
    }
    let blocks = words::block::block_count(row_count);
    put_pairs(directory, block, blocks + 1, rows, size);
}

// The same pair for the blocks from one up to, not including, another: by their numbers, since what is said of the rest is said of the
// whole list.
fn put_pairs(directory: &mut [u32], from: usize, to: usize, rows: u32, size: u32)
    requires { (from ≤ to) × (2 * to ≤ length directory.old) }
    ensures { directory.new ≡ sets directory.old (2 * from) (same (to - from) rows size) }
{
    for block in from..to {
        directory[2 * block] = rows;
        directory[2 * block + 1] = size;
    }
}
