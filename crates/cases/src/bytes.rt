// The worked cases' bytes: row counts, entries, and a block's data and questions.
use lines::{Answer, Bytes, OrNone, line};
use spec::{Entry, Refusal};
use std::io;

// The data of P2's block.
const PART: [u8; 4] = [1, 0, 5, 0];

// The row count of P1, of P2 and of P4, and the padded one of P10.
pub fn row_counts(rt: &impl Print) -> io::Result<()> {
    row_count(rt, "P1 row count 300", 300, &[0x2C, 0x82])?;
    row_count(rt, "P2 row count 10", 10, &[0x8A])?;
    row_count(
        rt,
        "P4 row count 4294901760",
        4294901760,
        &[0x00, 0x00, 0x7C, 0x7F, 0x8F],
    )?;
    line(
        rt,
        "P10 row count 2C 02 80",
        read(&[0x2C, 0x02, 0x80]),
        Answer(Err(Refusal::Header)),
    )?;
    line(
        rt,
        "row count 2C 82 read",
        read(&[0x2C, 0x82]),
        Answer(Ok(300)),
    )
}

fn row_count(rt: &impl Print, name: &str, count: u32, due: &[u8]) -> io::Result<()> {
    let mut out = [0u8; 5];
    let n = words::count::write(&mut out, count);
    line(rt, name, Bytes(&out[..n]), Bytes(due))
}

// A row count that is read. Opening refuses a file that has none by HEADER.
fn read(s: &[u8]) -> Answer<u64> {
    Answer(match words::count::read(s) {
        Ok(r) => Ok(r.count),
        Err(_) => Err(Refusal::Header),
    })
}

// The entry of P2's block, and of a full one.
pub fn entries(rt: &impl Print) -> io::Result<()> {
    let two = words::entry::to_bytes(Entry { number: 0, rows: 2 });
    line(
        rt,
        "P2 entry of 2 rows",
        Bytes(&two),
        Bytes(&[0x00, 0x00, 0x01, 0x00]),
    )?;
    let full = words::entry::to_bytes(Entry {
        number: 0,
        rows: 65536,
    });
    line(
        rt,
        "entry of 65536 rows",
        Bytes(&full),
        Bytes(&[0x00, 0x00, 0xFF, 0xFF]),
    )?;
    let read = words::entry::from_bytes([0x00, 0x00, 0xFF, 0xFF]);
    line(rt, "rows in entry 00 00 FF FF", read.rows, 65536)
}

// The last mini-block of a full block, whose running count is 65,472.
pub fn mini_block(rt: &impl Print) -> io::Result<()> {
    let last = mini::DenseMiniBlock {
        bitvec: u64::MAX,
        rank: 65472,
    };
    line(
        rt,
        "last mini-block of a full block",
        Bytes(&last.to_bytes()),
        Bytes(&[0xFF, 0xFF, 0xFF, 0xFF, 0xFF, 0xFF, 0xFF, 0xFF, 0xC0, 0xFF]),
    )
}

// P2's block: its data, and the questions asked of it.
pub fn block(rt: &impl Print) -> io::Result<()> {
    let mut out = [0u8; 4];
    sparse::write(&[1, 5], &mut out);
    line(rt, "P2 data", Bytes(&out), Bytes(&PART))?;
    line(rt, "P5 rank 5 in the block", sparse::rank(&PART, 5), 1)?;
    line(rt, "P7 select 1 in the block", sparse::select(&PART, 1), 5)?;
    line(
        rt,
        "P8 next 6 in the block",
        OrNone(sparse::next(&PART, 6)),
        OrNone(None),
    )?;
    line(
        rt,
        "lookup 5 in the block",
        OrNone(sparse::lookup(&PART, 5)),
        OrNone(Some(1)),
    )
}
