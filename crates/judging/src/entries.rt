// The entries of a file: 6, their numbers do not increase below B, or one has more rows than its block.
ghost use Rattle.std.specs.Prelude.{◌≡◌, ◌+◌, ◌*◌, ◌≤◌, length, map};
ghost use Rattle.spec.specs.Reading.{rows_at, entry_in, entry_count, entries_of};
ghost use Rattle.judging.specs.Phases.{is_entry, totals};

use spec::Entry;
use words::block::ROWS;

// What the entries call for: so many populated rows, and so many data bytes.
#[derive(Clone, Copy, Debug, PartialEq, Eq)]
pub(crate) struct Totals {
    pub rows: u32,
    pub size: usize,
}

// How many entries the last two bytes of a file say.
pub fn count(bytes: &[u8]) -> u16
    requires { 2 ≤ length bytes.now }
    ensures { result ≡ entry_count bytes.now }
{
    words::le::u16_at(bytes, bytes.len() - 2)
}

// The entries of a file, four bytes each.
pub fn table(bytes: &[u8]) -> &[[u8; 4]]
    requires { 4 * entry_count bytes.now + 2 ≤ length bytes.now }
    ensures { map entry_in result.now ≡ entries_of bytes.now }
{
    let end = bytes.len() - 2;
    let from = end - 4 * count(bytes) as usize;
    bytes[from..end].as_chunks::<4>().0
}

// Their sums, if they are right.
pub(crate) fn add_up(table: &[[u8; 4]], row_count: u32) -> Option<Totals>
    ensures { result ≡ totals row_count (map entry_in table.now) }
{
    let mut low: u32 = 0;
    let mut rows: u32 = 0;
    let mut size = 0;
    for four in table {
        let x = words::entry::from_bytes(*four);
        if !entry_ok(x, low, row_count) {
            return None;
        }
        low = x.number as u32 + 1;
        rows += x.rows;
        size += words::block::data_size(x.rows as usize);
    }
    Some(Totals { rows, size })
}

// Whether an entry may stand behind those of blocks below low.
fn entry_ok(x: Entry, low: u32, row_count: u32) -> bool
    ensures { result ≡ is_entry row_count low x }
{
    low <= x.number as u32
        && (x.number as usize) < words::block::block_count(row_count)
        && x.rows <= rows_at(row_count, x.number)
}

// How many rows, populated or not, a block has.
pub(crate) fn rows_at(row_count: u32, number: u16) -> u32
    ensures { result ≡ rows_at row_count number }
{
    let from = number as u32 * ROWS;
    if row_count <= from {
        return 0;
    }
    (row_count - from).min(ROWS)
}
