// The worked cases of document 01 that code can be asked for, a line each: what came, and whether it is what the document says.
#![tactic(auto)]

mod bytes;
mod files;
mod set;

use lines::{Answer, List, OrNone, line};
use spec::Refusal;
use std::io;

// P2's rows.
const P2: [u32; 2] = [1, 5];

fn main(rt: HostRuntime) -> io::Result<()> {
    questions(&rt)?;
    batch(&rt)?;
    refusals(&rt)?;
    c_numbers(&rt)?;
    bytes::row_counts(&rt)?;
    bytes::entries(&rt)?;
    bytes::mini_block(&rt)?;
    bytes::block(&rt)?;
    files::short(&rt)?;
    files::refused(&rt)?;
    files::full(&rt)
}

// rank, select, next and lookup, one row at a time.
fn questions(rt: &impl Print) -> io::Result<()> {
    line(rt, "P5 rank 5", set::rank(&P2, 5), 1)?;
    line(rt, "P6 rank 10", set::rank(&P2, 10), 2)?;
    line(
        rt,
        "P7 select 1",
        Answer(set::select(&P2, 1)),
        Answer(Ok(5)),
    )?;
    line(rt, "P8 next 6", OrNone(set::next(&P2, 6)), OrNone(None))?;
    line(
        rt,
        "select 2 on P2",
        Answer(set::select(&P2, 2)),
        Answer(Err(Refusal::Rank)),
    )?;
    line(
        rt,
        "lookup 5 on P2",
        OrNone(set::lookup(&P2, 5)),
        OrNone(Some(1)),
    )?;
    line(
        rt,
        "lookup 9 on P2",
        OrNone(set::lookup(&P2, 9)),
        OrNone(None),
    )
}

// Batch lookup.
fn batch(rt: &impl Print) -> io::Result<()> {
    let questions = [5, 5, 1, 9];
    let mut hits = [0; 4];
    let mut ranks = [0; 4];
    let n = set::lookup_batch(&P2, &questions, &mut hits, &mut ranks);
    line(
        rt,
        "P9 batch 5 5 1 9, rows",
        List(&hits[..n]),
        List(&[5, 5, 1]),
    )?;
    line(
        rt,
        "P9 batch 5 5 1 9, ranks",
        List(&ranks[..n]),
        List(&[1, 1, 0]),
    )
}

// The refusals' numbers.
fn refusals(rt: &impl Print) -> io::Result<()> {
    line(rt, "ROWS", codes::of_refusal(Refusal::Rows), 1)?;
    line(rt, "ORDER", codes::of_refusal(Refusal::Order), 2)?;
    line(rt, "RANGE", codes::of_refusal(Refusal::Range), 3)?;
    line(rt, "ROOM", codes::of_refusal(Refusal::Room), 4)?;
    line(rt, "HEADER", codes::of_refusal(Refusal::Header), 5)?;
    line(rt, "ENTRIES", codes::of_refusal(Refusal::Entries), 6)?;
    line(rt, "LENGTH", codes::of_refusal(Refusal::Length), 7)?;
    line(rt, "CONTENT", codes::of_refusal(Refusal::Content), 8)?;
    line(rt, "RANK", codes::of_refusal(Refusal::Rank), 9)?;
    line(rt, "BROKEN", codes::of_refusal(Refusal::Broken), 10)
}

// The 64-bit numbers that the C calls answer.
fn c_numbers(rt: &impl Print) -> io::Result<()> {
    line(rt, "C number of no", codes::of_answer(Ok(false)), 0)?;
    line(rt, "C number of yes", codes::of_answer(Ok(true)), 1)?;
    line(
        rt,
        "C number of none",
        codes::of_answer(Ok(None::<u32>)),
        4294967296,
    )?;
    line(
        rt,
        "C number of select 2 on P2",
        codes::of_answer(set::select(&P2, 2)),
        4294967305,
    )
}
