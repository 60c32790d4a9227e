// Rows to a file: the row count, then block by block the data, with the entries behind all data, then their number.
#![tactic(auto)]

ghost use Rattle.std.specs.Prelude.{◌≡◌, true, ◌+◌, ◌*◌, ◌/◌, ◌≤◌, ◌<◌, length, get_or};
ghost use Rattle.std.proofs.lemmas.List.Edits.{sets};
ghost use Rattle.spec.specs.Set.{rising};
ghost use Rattle.spec.specs.Layout.{size, data_of, entry_of, blocks, all_data, all_entries};
ghost use Rattle.spec.specs.Reading.{Permitted, size_of_data};
ghost use Rattle.spec.specs.Answers.{WriteOwes, counted};
ghost use Rattle.rows.specs.Runs.{ascends, places};

use spec::{Count, Entry, Refusal};
use words::block::{DENSE_FROM, LIMIT, ROWS};

// The file of the rows, at the front of out, which otherwise stays; its length. All three are the caller's.
pub fn write(row_count: u32, rows: &[u32], out: &mut [u8]) -> Count
    ensures { WriteOwes row_count rows.now out.old (counted result, out.new) }
{
    if LIMIT < row_count {
        return Err(Refusal::Rows);
    }
    rows::fault(row_count, rows)?;
    put_file(row_count, rows, out)
}

// The same, of rows that may be written.
fn put_file(row_count: u32, rows: &[u32], out: &mut [u8]) -> Count
    requires { Permitted row_count rows.now }
    ensures { WriteOwes row_count rows.now out.old (counted result, out.new) }
{
    let shape = rows::measure(rows);
    let start = words::count::size(row_count);
    let entries = start + shape.data;
    let last = entries + 4 * shape.entries;
    if out.len() < last + 2 {
        return Err(Refusal::Room);
    }
    words::count::write(out, row_count);
    put_blocks(out, start, entries, rows);
    words::le::put_u16(out, last, shape.entries as u16);
    Ok(last + 2)
}

// The data of all blocks, stored from at on, and their entries, stored from to on.
fn put_blocks(out: &mut [u8], at: usize, to: usize, rows: &[u32])
    requires rows_rise { ascends 0 rows.now ≡ true }
    requires room { (at + length (all_data (blocks rows.now)) ≤ to) × (to + 4 * length (blocks rows.now) ≤ length out.old) }
    ensures { out.new ≡ sets (sets out.old at (all_data (blocks rows.now))) to (all_entries (blocks rows.now)) }
{
    let mut data_at = at;
    let mut entry_at = to;
    let mut i = 0;
    // by index: with each run split off the rest, this takes up to 1.08 times as long where blocks hold few rows
    while i < rows.len() {
        let end = rows::block_run(rows, i);
        put_block(out, data_at, entry_at, &rows[i..end]);
        data_at += words::block::data_size(end - i);
        entry_at += 4;
        i = end;
    }
}

// The data of the rows of one block, stored from at on, and its entry, stored at to. That their places rise is asked for: they are a part
// of rows that ascend.
fn put_block(out: &mut [u8], at: usize, to: usize, rows: &[u32])
    requires room { (at + size_of_data (length rows.now) ≤ to) × (to + 4 ≤ length out.old) }
    requires rows_there { (0 < length rows.now) × (rising 0 size (places rows.now) ≡ true) }
    ensures { out.new ≡ sets (sets out.old at (data_of (places rows.now))) to (entry_of (record { number = get_or rows.now 0 0 / size; places = places rows.now })) }
{
    let n = rows.len();
    let end = at + words::block::data_size(n);
    put_data(&mut out[at..end], rows);
    let number = (rows[0] / ROWS) as u16;
    let entry = words::entry::to_bytes(Entry {
        number,
        rows: n as u32,
    });
    out[to..to + 4].copy_from_slice(&entry);
}

// The data of the rows of one block, which fill out: sparse or dense by their number, where the parts' readers go by length.
#[tactic(auto, using(crate::proofs::BlockLaws::data_few, crate::proofs::BlockLaws::data_many))]
fn put_data(out: &mut [u8], rows: &[u32])
    requires out_long { length out.old ≡ size_of_data (length rows.now) }
    requires rows_rise { rising 0 size (places rows.now) ≡ true }
    ensures { out.new ≡ data_of (places rows.now) }
{
    if rows.len() < DENSE_FROM {
        sparse::write(rows, out);
    } else {
        dense::write(rows, out);
    }
}
