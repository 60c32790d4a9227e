// The questions over the bytes alone: opening's checks 5, 1, 6, 7, 8, and then the answer. No directory, and no lent memory.
#![tactic(auto)]

mod file;
mod spots;

ghost use Rattle.spec.specs.Answers.{answered, numbered, found, OnceOwes, say_contains, say_rank, say_lookup, say_select, say_next};

use crate::file::File;
use spec::{Answer, Found, Number, Refusal};

// Whether a row is in the set.
pub fn contains_once(bytes: &[u8], row: u32) -> Answer
    ensures { OnceOwes bytes.now (say_contains row) (answered result) }
{
    let file = File::new(bytes)?;
    Ok(file.contains(row))
}

// The number of members below a row.
pub fn rank_once(bytes: &[u8], row: u32) -> Number
    ensures { OnceOwes bytes.now (say_rank row) (numbered result) }
{
    let file = File::new(bytes)?;
    Ok(file.rank(row))
}

// The rank of a row, if it is a member.
pub fn lookup_once(bytes: &[u8], row: u32) -> Found
    ensures { OnceOwes bytes.now (say_lookup row) (found result) }
{
    let file = File::new(bytes)?;
    Ok(file.lookup(row))
}

// The member with a rank.
pub fn select_once(bytes: &[u8], rank: u32) -> Number
    ensures { OnceOwes bytes.now (say_select rank) (numbered result) }
{
    let file = File::new(bytes)?;
    if file.record.populated <= rank {
        return Err(Refusal::Rank);
    }
    Ok(file.select(rank))
}

// The smallest member at or after a row.
pub fn next_once(bytes: &[u8], row: u32) -> Found
    ensures { OnceOwes bytes.now (say_next row) (found result) }
{
    let file = File::new(bytes)?;
    Ok(file.next(row))
}
