// Damage to a dense block: the file of all 5,120 rows of 5,120, whose data begin at byte 2. Mini-block 79 has the last rows.
use lines::{Answer, line};
use spec::{Number, Refusal};
use std::io;

// Where mini-block 79 begins in the file.
const MINI_79: usize = 792;

// Where mini-block 80 begins.
const MINI_80: usize = 802;

pub fn all(rt: &impl Print) -> io::Result<()> {
    // Filled in place: array::from_fn gives its array by value, and the stack then holds it twice.
    let mut rows = [0; 5120];
    for (i, row) in rows.iter_mut().enumerate() {
        *row = i as u32;
    }
    let mut bytes = [0; 10248];
    let _ = writing::write(5120, &rows, &mut bytes);
    opened(rt, "all 5120 rows of 5120", &bytes, Ok(5120))?;
    bytes[MINI_79 + 7] = 0x7F;
    opened(
        rt,
        "a row less than the entry says",
        &bytes,
        Err(Refusal::Content),
    )?;
    // Row 5,119 taken away and row 5,120 put in its place: first the running count behind them is wrong, then the row alone.
    bytes[MINI_80] = 1;
    opened(
        rt,
        "a running count that is wrong",
        &bytes,
        Err(Refusal::Content),
    )?;
    bytes[MINI_80 + 8] = 0xFF;
    bytes[MINI_80 + 9] = 0x13;
    opened(rt, "row 5120 of 5120", &bytes, Err(Refusal::Content))
}

fn opened(rt: &impl Print, name: &str, bytes: &[u8], due: Number) -> io::Result<()> {
    let mut words = [0; 4];
    line(
        rt,
        name,
        Answer(crate::open(bytes, &mut words)),
        Answer(due),
    )
}
