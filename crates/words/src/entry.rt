// A block's entry in four bytes: its number, and its rows minus one, so that 65,536 rows are stored as 65535.
// Functions, and no `From`: neither type is of this crate, and the way to bytes has a `requires`.
ghost use Rattle.std.specs.Prelude.{◌≡◌, ◌≤◌};
ghost use Rattle.spec.specs.Reading.{entry_in};
ghost use Rattle.spec.specs.Layout.{entry_bytes};

use crate::le;
use spec::Entry;

pub fn from_bytes(data: [u8; 4]) -> Entry
    ensures { result ≡ entry_in «data» }
{
    Entry {
        number: le::u16_at(&data, 0),
        rows: le::u16_at(&data, 2) as u32 + 1,
    }
}

pub fn to_bytes(entry: Entry) -> [u8; 4]
    requires { (1 ≤ entry.rows) × (entry.rows ≤ 65536) }
    ensures { result ≡ entry_bytes entry }
{
    let mut out = [0u8; 4];
    le::put_u16(&mut out, 0, entry.number);
    le::put_u16(&mut out, 2, (entry.rows - 1) as u16);
    out
}
