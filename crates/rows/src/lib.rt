// The rows to write: their first fault, and the runs of rows of one block.
#![tactic(auto)]

ghost use Rattle.std.specs.Prelude.{◌≡◌, true, ◌+◌, ◌*◌, ◌/◌, ◌≤◌, ◌<◌, length, get_or};
ghost use Rattle.std.specs.List.{IsAllAdjacentAnswer};
ghost use Rattle.spec.specs.Answers.{value, done, unless, row_fault};
ghost use Rattle.spec.specs.Layout.{size};
ghost use Rattle.words.specs.Part.{NeverFalls};
ghost use Rattle.rows.specs.Runs.{ascends, Below, Run, Shaped};

use spec::{Done, Refusal};
use words::block::ROWS;

// The refusal of the first faulty row.
pub fn fault(row_count: u32, rows: &[u32]) -> Done
    ensures { done result ≡ unless (row_fault row_count 0 rows.now) (value tt) }
{
    if neighbours(rows, |row, next| row < next)
        && rows.last().is_none_or(|last| *last < row_count)
    {
        return Ok(());
    }
    first_fault(row_count, rows)
}

// Whether a test passes each row with the next: a flag without an early exit, so that many are compared at once.
pub fn neighbours<F: Fn(u32, u32) -> bool>(rows: &[u32], test: F) -> bool
    requires { F.IsAlwaysCallable test }
    ensures { IsAllAdjacentAnswer (F.post test) rows.now result }
{
    let mut ok = true;
    // by index: over windows(2) the same takes up to 1.4 times as long
    for i in 1..rows.len() {
        if !test(rows[i - 1], rows[i]) {
            ok = false;
        }
    }
    ok
}

// The same as fault, row by row.
fn first_fault(row_count: u32, rows: &[u32]) -> Done
    ensures { done result ≡ unless (row_fault row_count 0 rows.now) (value tt) }
{
    let mut low: u32 = 0;
    for &row in rows {
        if row < low {
            return Err(Refusal::Order);
        }
        if row_count <= row {
            return Err(Refusal::Range);
        }
        low = row + 1;
    }
    Ok(())
}

// The first row that is not below end, where that at an index is: gallops, then halves, since the rows never fall.
pub fn run_end(rows: &[u32], from: usize, end: u64) -> usize
    requires from_in_bounds { (from < length rows.now) × (get_or rows.now from 0 < end) }
    requires never_falls { NeverFalls rows.now }
    ensures { Below rows.now end result }
{
    // the index stays, since the answer is an index of all rows; no method of slices gallops; the row at `at` is below end
    let mut at = from;
    let mut step = 1;
    while step < rows.len() - at {
        if end <= rows[at + step] as u64 {
            return halve(rows, at, step, end);
        }
        at += step;
        step *= 2;
    }
    halve(rows, at, rows.len() - at, end)
}

// The same, where it is among the next few. By hand: with partition_point, writing takes up to 1.17 times as long.
fn halve(rows: &[u32], from: usize, few: usize, end: u64) -> usize
    requires le_few { (1 ≤ few) × (from + few ≤ length rows.now) × (get_or rows.now from 0 < end) }
    requires end_bound { from + few < length rows.now → end ≤ get_or rows.now (from + few) 0 }
    requires never_falls { NeverFalls rows.now }
    ensures { Below rows.now end result }
{
    let mut base = from;
    let mut left = few;
    while 1 < left {
        let half = left / 2;
        let mid = base + half;
        left -= half;
        if (rows[mid] as u64) < end {
            base = mid;
        }
    }
    base + 1
}

// What the blocks of rows take: their data bytes, and how many there are.
#[derive(Clone, Copy, Debug, PartialEq, Eq)]
pub struct Shape {
    pub data: usize,
    pub entries: usize,
}

// That rows ascend is asked for, and no type says it: a run is a part of them, and each would be made a value of such a type anew.
pub fn measure(rows: &[u32]) -> Shape
    requires { ascends 0 rows.now ≡ true }
    ensures { Shaped rows.now result.«data» result.entries }
{
    let mut data = 0;
    let mut entries = 0;
    let mut i = 0;
    // by index: with each run split off the rest, writing takes up to 1.08 times as long where blocks hold few rows
    while i < rows.len() {
        let to = block_run(rows, i);
        data += words::block::data_size(to - i);
        entries += 1;
        i = to;
    }
    Shape { data, entries }
}

// The end of the run of rows of one block that begins at an index.
pub fn block_run(rows: &[u32], from: usize) -> usize
    requires { (from < length rows.now) × (ascends 0 rows.now ≡ true) }
    ensures { Run rows.now from result }
{
    run_end(rows, from, block_end(rows[from]))
}

// Where the block of a row ends.
fn block_end(row: u32) -> u64
    ensures { result ≡ row / size * size + size }
{
    (row / ROWS) as u64 * ROWS as u64 + ROWS as u64
}
