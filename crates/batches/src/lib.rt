// Batches and pages over an opened file: its bytes, and the directory and the record that opening gave. 10 comes first, then 4 or 9.
// Rows and ranks are two lists, and a count says how much of them is new, as callers lend them.
#![tactic(auto)]

mod lookups;
mod pages;
mod selects;

ghost use Rattle.spec.specs.Answers.{counted, done, LookupBatchOwes, SelectBatchOwes, PageOwes};

use asking::index::Index;
use spec::{Count, Done, Record, Refusal};

// The questions that are members, in question order, at the front of rows, and their ranks at the front of ranks; how many there are.
pub fn lookup_batch(
    bytes: &[u8],
    directory: &[u32],
    record: Record,
    questions: &[u32],
    rows: &mut [u32],
    ranks: &mut [u32],
) -> Count
    ensures { LookupBatchOwes bytes.now directory.now «record» questions.now rows.old ranks.old (counted result, rows.new, ranks.new) }
{
    let index = Index::new(bytes, directory, record)?;
    if rows.len() < questions.len() {
        return Err(Refusal::Room);
    }
    if ranks.len() < questions.len() {
        return Err(Refusal::Room);
    }
    if lookups::never_fall(questions) {
        return Ok(lookups::sorted(index, questions, rows, ranks));
    }
    Ok(lookups::in_order(index, questions, rows, ranks))
}

// Replaces each rank by its row. All are tested first, so that one bad rank refuses all.
pub fn select_batch(bytes: &[u8], directory: &[u32], record: Record, ranks: &mut [u32]) -> Done
    ensures { SelectBatchOwes bytes.now directory.now «record» ranks.old (done result, ranks.new) }
{
    let index = Index::new(bytes, directory, record)?;
    if !selects::all_below(ranks, record.populated) {
        return Err(Refusal::Rank);
    }
    selects::replace(index, ranks);
    Ok(())
}

// The members from a rank on, at the front of rows, as many as there are and rows has room for; how many those are.
pub fn page(bytes: &[u8], directory: &[u32], record: Record, from: u32, rows: &mut [u32]) -> Count
    ensures { PageOwes bytes.now directory.now «record» from rows.old (counted result, rows.new) }
{
    let index = Index::new(bytes, directory, record)?;
    if record.populated < from {
        return Err(Refusal::Rank);
    }
    let n = pages::room(rows.len(), from, record.populated);
    if n == 0 {
        return Ok(0);
    }
    pages::fill(index, from, &mut rows[..n]);
    Ok(n)
}
