// The contents of the blocks: 8, what the data say is not what the entries and the row count allow.
ghost use Rattle.std.specs.Prelude.{◌≡◌, ◌+◌, ◌≤◌, length, map};
ghost use Rattle.spec.specs.Reading.{entry_in, size_of_data, data_sizes, is_content, contents_ok};

use crate::head::Head;

// Whether all blocks' contents are right: behind the head their data lie one after the other. Not inlined: among its caller's values
// the loop keeps its counter on the stack, and blocks of one row take up to 1.3 times as long to judge.
#[inline(never)]
pub(crate) fn all_ok(bytes: &[u8], head: Head, table: &[[u8; 4]]) -> bool
    requires { head.start + data_sizes (map entry_in table.now) ≤ length bytes.now }
    ensures { result ≡ contents_ok head.row_count (map entry_in table.now) head.start bytes.now }
{
    let mut from = head.start;
    for four in table {
        let x = words::entry::from_bytes(*four);
        let to = from + words::block::data_size(x.rows as usize);
        let end = crate::entries::rows_at(head.row_count, x.number);
        if !content_ok(&bytes[from..to], x.rows, end) {
            return false;
        }
        from = to;
    }
    true
}

// One block's: dense or sparse by its length, by each kind's own function. The end is a plain number: rows_at, which gives it, bounds it.
fn content_ok(part: &[u8], rows: u32, end: u32) -> bool
    requires { (length part.now ≡ size_of_data rows) × (end ≤ 65536) }
    ensures { result ≡ is_content rows end part.now }
{
    match dense::data(part) {
        Some(data) => dense::content_ok(data, rows, end),
        None => sparse::content_ok(part, rows, end),
    }
}
