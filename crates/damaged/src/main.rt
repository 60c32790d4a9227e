// Files that are opened: good ones, with their record and directory, and damaged ones, each the smallest that shows its refusal.
#![tactic(auto)]

mod dense_block;

use lines::{Answer, List, line};
use spec::{Number, Refusal};
use std::io;

fn main(rt: HostRuntime) -> io::Result<()> {
    good(&rt)?;
    header(&rt)?;
    rows(&rt)?;
    entries(&rt)?;
    length(&rt)?;
    content(&rt)?;
    room(&rt)?;
    dense_block::all(&rt)
}

// The directory lies at the front, and further words stay.
fn good(rt: &impl Print) -> io::Result<()> {
    opened(rt, "P1", &[0x2C, 0x82, 0, 0], Ok(300), [0, 0, 0, 0, 7, 7])?;
    opened(
        rt,
        "P2",
        &[0x8A, 1, 0, 5, 0, 0, 0, 1, 0, 1, 0],
        Ok(10),
        [0, 0, 2, 4, 7, 7],
    )?;
    opened(
        rt,
        "P3",
        &[1, 0, 0x84, 0, 0, 1, 0, 0, 0, 1, 0],
        Ok(65537),
        [0, 0, 0, 0, 1, 2],
    )?;
    opened(rt, "no rows of 0", &[0x80, 0, 0], Ok(0), [0, 0, 7, 7, 7, 7])
}

// 5: too short; not ended before the last two bytes, or within five; padded.
fn header(rt: &impl Print) -> io::Result<()> {
    refused(rt, "no bytes", &[], Refusal::Header)?;
    refused(rt, "two bytes", &[0x80, 0], Refusal::Header)?;
    refused(
        rt,
        "a row count into the last two bytes",
        &[0x0A, 0x80, 0x80],
        Refusal::Header,
    )?;
    refused(
        rt,
        "a row count of six bytes",
        &[0, 0, 0, 0, 0, 0x81, 0, 0],
        Refusal::Header,
    )?;
    refused(
        rt,
        "P10, a padded row count",
        &[0x2C, 0x02, 0x80, 0, 0],
        Refusal::Header,
    )
}

// 1, also where the row count is past 32 bits, and before any fault of the entries.
fn rows(rt: &impl Print) -> io::Result<()> {
    refused(
        rt,
        "row count 4294901761",
        &[0x01, 0, 0x7C, 0x7F, 0x8F, 0, 0],
        Refusal::Rows,
    )?;
    refused(
        rt,
        "a row count past 32 bits",
        &[0, 0, 0, 0, 0xFF, 0, 0],
        Refusal::Rows,
    )?;
    refused(
        rt,
        "above the limit, and an entry without room",
        &[0x01, 0, 0x7C, 0x7F, 0x8F, 1, 0],
        Refusal::Rows,
    )
}

// 6: entries overlap the row count; a number at B, or not increasing; more rows than the block has.
fn entries(rt: &impl Print) -> io::Result<()> {
    refused(rt, "an entry without room", &[0x8A, 1, 0], Refusal::Entries)?;
    refused(
        rt,
        "an entry that overlaps the row count",
        &[0, 0, 0x7C, 0x7F, 0x8F, 0, 0, 0, 1, 0],
        Refusal::Entries,
    )?;
    refused(
        rt,
        "block 1 of one block",
        &[0x8A, 1, 0, 0, 0, 1, 0],
        Refusal::Entries,
    )?;
    refused(
        rt,
        "block 0 twice",
        &[0x8A, 1, 0, 2, 0, 0, 0, 0, 0, 0, 0, 0, 0, 2, 0],
        Refusal::Entries,
    )?;
    refused(
        rt,
        "two rows of one",
        &[0x81, 0, 0, 1, 0, 0, 0, 1, 0, 1, 0],
        Refusal::Entries,
    )?;
    refused(
        rt,
        "a late entry at fault behind bad places",
        &[0x8A, 10, 0, 0, 0, 0, 0, 0, 0, 1, 0, 0, 0, 2, 0],
        Refusal::Entries,
    )
}

// 7: a byte too many, or too few.
fn length(rt: &impl Print) -> io::Result<()> {
    refused(rt, "a byte and no entry", &[0x8A, 7, 0, 0], Refusal::Length)?;
    refused(
        rt,
        "three bytes for two places",
        &[0x8A, 5, 0, 5, 0, 0, 1, 0, 1, 0],
        Refusal::Length,
    )
}

// 8: places that do not increase, or a row at the row count.
fn content(rt: &impl Print) -> io::Result<()> {
    refused(
        rt,
        "place 5 twice",
        &[0x8A, 5, 0, 5, 0, 0, 0, 1, 0, 1, 0],
        Refusal::Content,
    )?;
    refused(
        rt,
        "row 10 of 10",
        &[0x8A, 10, 0, 0, 0, 0, 0, 1, 0],
        Refusal::Content,
    )
}

// 4: a directory of three words, where four are due.
fn room(rt: &impl Print) -> io::Result<()> {
    opened(
        rt,
        "P2 into three words",
        &[0x8A, 1, 0, 5, 0, 0, 0, 1, 0, 1, 0],
        Err(Refusal::Room),
        [7; 3],
    )
}

// A refusal leaves the directory as it was.
fn refused(rt: &impl Print, name: &str, bytes: &[u8], due: Refusal) -> io::Result<()> {
    opened(rt, name, bytes, Err(due), [7; 6])
}

// Opens with a directory of as many words as are due, each 7 before.
fn opened<const N: usize>(
    rt: &impl Print,
    name: &str,
    bytes: &[u8],
    due: Number,
    after: [u32; N],
) -> io::Result<()> {
    let mut words = [7; N];
    line(rt, name, Answer(open(bytes, &mut words)), Answer(due))?;
    line(rt, "  the directory", List(&words), List(&after))
}

// The row count of the record.
fn open(bytes: &[u8], words: &mut [u32]) -> Number {
    opening::open(bytes, words).map(|record| record.row_count)
}
