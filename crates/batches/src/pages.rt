// Pages: members from a rank on, block by block.
ghost use Rattle.std.specs.Prelude.{◌≡◌, ◌+◌, ◌-◌, ◌<◌, ◌≤◌, min, length};
ghost use Rattle.spec.specs.Reading.{count_of_blocks};
ghost use Rattle.batches.specs.Batches.{Listed, ListedIn};

use asking::index::Index;
use words::block::ROWS;

// Fills rows with the members from a rank on. The block of the rank is looked up; the next block's ranks follow.
pub(crate) fn fill(index: Index, from: u32, rows: &mut [u32])
    requires { (0 < length rows.old) × (from + length rows.old ≤ index.«record».populated) }
    ensures { Listed index.entry.bytes.now index.entry.directory.now index.entry.«record» from rows.old rows.new }
{
    let blocks = words::block::block_count(index.record.row_count);
    let mut done = 0;
    for block in index.find_block(from)..blocks {
        if done == rows.len() {
            return;
        }
        let rank = from + done as u32;
        let to = done + room(rows.len() - done, rank, index.rows_before(block + 1));
        fill_in(index, block, rank, &mut rows[done..to]);
        done = to;
    }
}

// The same where all these ranks are of one block.
pub(crate) fn fill_in(index: Index, block: usize, from: u32, rows: &mut [u32])
    requires { block < count_of_blocks index.«record».row_count }
    ensures { ListedIn index.entry.bytes.now index.entry.directory.now index.entry.«record» block from rows.old rows.new }
{
    let place = from.wrapping_sub(index.rows_before(block));
    blocks::page(index.part(block), ROWS * block as u32, place, rows);
}

// How many ranks from k on are below an end, of at most so many.
pub(crate) fn room(most: usize, k: u32, end: u32) -> usize
    ensures { result ≡ min most (end - k) }
{
    most.min(end.saturating_sub(k) as usize)
}
