// The verdict on a file's bytes: the checks 5, 1, 6, 7, 8, each over the whole file before the next. Here alone a file is judged.
#![tactic(auto)]

mod contents;
pub mod entries;
mod head;

ghost use Rattle.std.specs.Prelude.{◌≡◌, Ok};
ghost use Rattle.spec.specs.Answers.{opened};
ghost use Rattle.spec.specs.Reading.{verdict};
ghost use Rattle.judging.specs.Phases.{judged, head_of};

use head::Head;
use spec::{Opened, Record, Refusal};

// The record of an accepted file, or its refusal. Not inlined: among its caller's values the entries' sums take 1.2 to 1.3 times as long.
#[inline(never)]
pub fn judge(bytes: &[u8]) -> Opened
    ensures { opened result ≡ judged (verdict bytes.now) }
{
    let head = head::read(bytes)?;
    judge_blocks(bytes, head)
}

// The same, behind a row count that is right.
fn judge_blocks(bytes: &[u8], head: Head) -> Opened
    requires { head_of bytes.now ≡ Ok head }
    ensures { opened result ≡ judged (verdict bytes.now) }
{
    let number = entries::count(bytes) as usize;
    if bytes.len() < head.start + 4 * number + 2 {
        return Err(Refusal::Entries);
    }
    let table = entries::table(bytes);
    let totals = entries::add_up(table, head.row_count).ok_or(Refusal::Entries)?;
    let from = bytes.len() - 2 - 4 * number;
    if from - head.start != totals.size {
        return Err(Refusal::Length);
    }
    if !contents::all_ok(bytes, head, table) {
        return Err(Refusal::Content);
    }
    Ok(Record {
        row_count: head.row_count,
        populated: totals.rows,
        data_start: head.start as u32,
    })
}
