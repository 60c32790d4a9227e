// Batch select: ranks in any order, runs of consecutive ones at once.
ghost use Rattle.std.specs.Prelude.{◌≡◌, ◌<◌, true, length};
ghost use Rattle.spec.specs.Reading.{count_of_blocks};
ghost use Rattle.spec.specs.Set.{below};
ghost use Rattle.directory.specs.Parts.{Bracket};
ghost use Rattle.batches.specs.Batches.{Selected, Run};

use crate::pages;
use asking::index::Index;

// Whether all ranks are below n: a flag without an early exit, so that many are compared at once.
pub(crate) fn all_below(ranks: &[u32], n: u32) -> bool
    ensures { result ≡ below n ranks.now }
{
    let mut ok = true;
    for rank in ranks {
        if n <= *rank {
            ok = false;
        }
    }
    ok
}

// Replaces ranks below n by their rows: a run of consecutive ranks in one block is a page of it.
pub(crate) fn replace(index: Index, ranks: &mut [u32])
    requires { below index.«record».populated ranks.old ≡ true }
    ensures { Selected index.entry.bytes.now index.entry.directory.now index.entry.«record» ranks.old ranks.new }
{
    let mut block = 0;
    let mut i = 0;
    // a turn takes a run of ranks
    while i < ranks.len() {
        let rank = ranks[i];
        block = block_of(index, block, rank);
        let to = run_end(ranks, i, index.rows_before(block + 1));
        pages::fill_in(index, block, rank, &mut ranks[i..to]);
        i = to;
    }
}

// The block of a rank: this one, or looked up.
fn block_of(index: Index, block: usize, rank: u32) -> usize
    requires { block < count_of_blocks index.«record».row_count }
    ensures { Bracket index.entry.directory.now (count_of_blocks index.entry.«record».row_count) rank result }
{
    if index.rows_before(block) <= rank && rank < index.rows_before(block + 1) {
        return block;
    }
    index.find_block(rank)
}

// The end of the run of consecutive ranks below an end that begins at an index; it has one rank at least.
fn run_end(ranks: &[u32], from: usize, end: u32) -> usize
    requires { from < length ranks.now }
    ensures { Run ranks.now from end result }
{
    let first = ranks[from];
    let few = pages::room(ranks.len() - from, first, end);
    for n in 1..few {
        if ranks[from + n] != first + n as u32 {
            return from + n;
        }
    }
    from + few.max(1)
}
