// The worked cases' files, written: the answer, and the whole output afterwards, which had 07 everywhere before.
use lines::{Answer, Bytes, line};
use spec::{Count, Refusal};
use std::{array, io};

// Files that are short enough to print. The rest of the output stays.
pub fn short(rt: &impl Print) -> io::Result<()> {
    wrote(
        rt,
        "P1 no rows of 300",
        300,
        &[],
        Ok(4),
        [0x2C, 0x82, 0, 0, 7, 7, 7, 7, 7, 7, 7],
    )?;
    wrote(
        rt,
        "P2 rows 1 5 of 10",
        10,
        &[1, 5],
        Ok(11),
        [0x8A, 1, 0, 5, 0, 0, 0, 1, 0, 1, 0],
    )?;
    wrote(
        rt,
        "P3 row 65536 of 65537",
        65537,
        &[65536],
        Ok(11),
        [1, 0, 0x84, 0, 0, 1, 0, 0, 0, 1, 0],
    )?;
    wrote(
        rt,
        "no rows of 0",
        0,
        &[],
        Ok(3),
        [0x80, 0, 0, 7, 7, 7, 7, 7, 7, 7, 7],
    )?;
    wrote(
        rt,
        "the last row of the largest row count",
        4294901760,
        &[4294901759],
        Ok(13),
        [0, 0, 0x7C, 0x7F, 0x8F, 0xFF, 0xFF, 0xFE, 0xFF, 0, 0, 1, 0],
    )
}

// What is refused leaves the output as it was.
pub fn refused(rt: &impl Print) -> io::Result<()> {
    let same = [7; 11];
    wrote(
        rt,
        "row count 4294901761",
        4294901761,
        &[],
        Err(Refusal::Rows),
        same,
    )?;
    wrote(
        rt,
        "P11 rows 4 4 of 10",
        10,
        &[4, 4],
        Err(Refusal::Order),
        same,
    )?;
    wrote(rt, "P12 row 10 of 10", 10, &[10], Err(Refusal::Range), same)?;
    wrote(rt, "row 0 of 0", 0, &[0], Err(Refusal::Range), same)?;
    wrote(
        rt,
        "P2 into ten bytes",
        10,
        &[1, 5],
        Err(Refusal::Room),
        [7; 10],
    )
}

// Writes into as many bytes as are due.
fn wrote<const N: usize>(
    rt: &impl Print,
    name: &str,
    row_count: u32,
    rows: &[u32],
    due: Count,
    after: [u8; N],
) -> io::Result<()> {
    let mut out = [7; N];
    let came = writing::write(row_count, rows, &mut out);
    line(rt, name, Answer(came), Answer(due))?;
    line(rt, "  the output", Bytes(&out), Bytes(&after))
}

// All rows of a sparse, of a dense and of a full block. The full block's count is stored as FF FF, and its last running count is C0 FF.
pub fn full(rt: &impl Print) -> io::Result<()> {
    let rows: [u32; 65536] = array::from_fn(|i| i as u32);
    let mut out = [0; 10249];
    let came = writing::write(5119, &rows[..5119], &mut out);
    line(rt, "all 5119 rows of 5119", Answer(came), Answer(Ok(10246)))?;
    let came = writing::write(5120, &rows[..5120], &mut out);
    line(rt, "all 5120 rows of 5120", Answer(came), Answer(Ok(10248)))?;
    let came = writing::write(65536, &rows, &mut out);
    line(
        rt,
        "all 65536 rows of 65536",
        Answer(came),
        Answer(Ok(10249)),
    )?;
    line(
        rt,
        "  its last running count",
        Bytes(&out[10241..10243]),
        Bytes(&[0xC0, 0xFF]),
    )?;
    line(
        rt,
        "  its entry",
        Bytes(&out[10243..10247]),
        Bytes(&[0, 0, 0xFF, 0xFF]),
    )
}
