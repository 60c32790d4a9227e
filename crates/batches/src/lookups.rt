// Batch lookup: a list that never falls goes block by block, any other question by question. Questions, rows and ranks go as three:
// each run lends other parts of them, so one value of all three would be built anew at every turn.
ghost use Rattle.std.specs.Prelude.{◌≡◌, ◌*◌, ◌<◌, ◌≤◌, length};
ghost use Rattle.spec.specs.Reading.{count_of_blocks};
ghost use Rattle.words.specs.Part.{NeverFalls, InBlock};
ghost use Rattle.batches.specs.Batches.{climbing, Hits};

use asking::index::Index;
use words::block::ROWS;

// Whether questions never fall.
pub(crate) fn never_fall(questions: &[u32]) -> bool
    ensures { result ≡ climbing 0 questions.now }
{
    rows::neighbours(questions, |row, next| row <= next)
}

// The hits of questions that never fall: those of one block at once, up to the first at or past the row count.
pub(crate) fn sorted(index: Index, questions: &[u32], rows: &mut [u32], ranks: &mut [u32]) -> usize
    requires never_falls { NeverFalls questions.now }
    requires room { (length questions.now ≤ length rows.old) × (length questions.now ≤ length ranks.old) }
    ensures { Hits index.entry.bytes.now index.entry.directory.now index.entry.«record» questions.now rows.old ranks.old rows.new ranks.new result }
{
    let mut n = 0;
    let mut i = 0;
    // a turn takes a run of questions
    while i < questions.len() {
        let row = questions[i];
        if index.record.row_count <= row {
            return n;
        }
        let block = row / ROWS;
        let to = rows::run_end(questions, i, block as u64 * ROWS as u64 + ROWS as u64);
        let some = &questions[i..to];
        n += in_block(index, block, some, &mut rows[n..], &mut ranks[n..]);
        i = to;
    }
    n
}

// The hits of questions that never fall and are rows of one block.
fn in_block(
    index: Index,
    block: u32,
    questions: &[u32],
    rows: &mut [u32],
    ranks: &mut [u32],
) -> usize
    requires block_below { block < count_of_blocks index.«record».row_count }
    requires never_falls { NeverFalls questions.now × InBlock (65536 * block) questions.now }
    requires room { (length questions.now ≤ length rows.old) × (length questions.now ≤ length ranks.old) }
    ensures { Hits index.entry.bytes.now index.entry.directory.now index.entry.«record» questions.now rows.old ranks.old rows.new ranks.new result }
{
    let part = index.part(block as usize);
    let first = index.rows_before(block as usize);
    blocks::batch(part, questions, ROWS * block, first, rows, ranks)
}

// The hits of questions in any order, one after another. Not one loop with a block's batch: there each question lies in the block.
pub(crate) fn in_order(
    index: Index,
    questions: &[u32],
    rows: &mut [u32],
    ranks: &mut [u32],
) -> usize
    requires room { (length questions.now ≤ length rows.old) × (length questions.now ≤ length ranks.old) }
    ensures { Hits index.entry.bytes.now index.entry.directory.now index.entry.«record» questions.now rows.old ranks.old rows.new ranks.new result }
{
    let mut n = 0;
    for row in questions {
        if let Some(rank) = index.lookup(*row) {
            rows[n] = *row;
            ranks[n] = rank;
            n += 1;
        }
    }
    n
}
