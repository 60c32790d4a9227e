// Questions over an opened file: its bytes, and the directory and the record that opening gave. 10 comes first, then 9. The three go as
// parameters, since the calls' promises name each.
#![tactic(auto)]

pub mod index;

ghost use Rattle.spec.specs.Answers.{answered, numbered, found, ContainsOwes, RankOwes, LookupOwes, SelectOwes, NextOwes};

use crate::index::Index;
use spec::{Answer, Found, Number, Record, Refusal};

// Whether a row is in the set.
pub fn contains(bytes: &[u8], directory: &[u32], record: Record, row: u32) -> Answer
    ensures { ContainsOwes bytes.now directory.now «record» row (answered result) }
{
    let index = Index::new(bytes, directory, record)?;
    Ok(index.contains(row))
}

// The number of members below a row.
pub fn rank(bytes: &[u8], directory: &[u32], record: Record, row: u32) -> Number
    ensures { RankOwes bytes.now directory.now «record» row (numbered result) }
{
    let index = Index::new(bytes, directory, record)?;
    Ok(index.rank(row))
}

// The rank of a row, if it is a member.
pub fn lookup(bytes: &[u8], directory: &[u32], record: Record, row: u32) -> Found
    ensures { LookupOwes bytes.now directory.now «record» row (found result) }
{
    let index = Index::new(bytes, directory, record)?;
    Ok(index.lookup(row))
}

// The member with a rank.
pub fn select(bytes: &[u8], directory: &[u32], record: Record, rank: u32) -> Number
    ensures { SelectOwes bytes.now directory.now «record» rank (numbered result) }
{
    let index = Index::new(bytes, directory, record)?;
    if record.populated <= rank {
        return Err(Refusal::Rank);
    }
    Ok(index.select(rank))
}

// The smallest member at or after a row.
pub fn next(bytes: &[u8], directory: &[u32], record: Record, row: u32) -> Found
    ensures { NextOwes bytes.now directory.now «record» row (found result) }
{
    let index = Index::new(bytes, directory, record)?;
    Ok(index.next(row))
}
