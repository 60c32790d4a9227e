// A block's spot in a file that is accepted: the rows before it, and its part of the file. The entries lead to it, one by one.
ghost use Rattle.std.specs.Prelude.{◌≡◌, ◌+◌, ◌*◌, ◌≤◌, length};
ghost use Rattle.spec.specs.Reading.{entry_count, entries_of};
ghost use Rattle.one_shot.specs.Spots.{spot_from, holder_from, Found};

// The part is two indices: that they lie in the file follows from the whole verdict, and is proved once, where File::part cuts.
#[derive(Clone, Copy, Debug, PartialEq, Eq)]
pub(crate) struct Spot {
    pub number: u16,
    pub rows: usize,
    pub from: usize,
    pub to: usize,
}

// The spot of a block, whose part is empty if the block is: every question of an empty part has an answer.
pub(crate) fn of_block(bytes: &[u8], start: u32, number: u16) -> Spot
    requires { 4 * entry_count bytes.now + 2 ≤ length bytes.now }
    ensures { result ≡ spot_from number 0 start (entries_of bytes.now) }
{
    let spot = find(bytes, start, |at, _| number <= at);
    if spot.number == number {
        return spot;
    }
    Spot {
        number,
        to: spot.from,
        ..spot
    }
}

// The spot of the block that has the member with rank k.
pub(crate) fn of_rank(bytes: &[u8], start: u32, k: u32) -> Spot
    requires { 4 * entry_count bytes.now + 2 ≤ length bytes.now }
    ensures { result ≡ holder_from k 0 start (entries_of bytes.now) }
{
    find(bytes, start, |_, rows| (k as usize) < rows)
}

// The spot of the first entry that a test takes, by its number and the rows up to and with it; number 0, behind all, if
// it takes none, as holder_from says.
fn find<F: Fn(u16, usize) -> bool>(bytes: &[u8], start: u32, test: F) -> Spot
    requires fits { 4 * entry_count bytes.now + 2 ≤ length bytes.now }
    requires callable { F.IsAlwaysCallable test }
    ensures { Found (F.post test) 0 start (entries_of bytes.now) result }
{
    let mut rows = 0;
    let mut from = start as usize;
    for four in judging::entries::table(bytes) {
        let x = words::entry::from_bytes(*four);
        let to = from + words::block::data_size(x.rows as usize);
        let after = rows + x.rows as usize;
        if test(x.number, after) {
            return Spot {
                number: x.number,
                rows,
                from,
                to,
            };
        }
        rows = after;
        from = to;
    }
    Spot {
        number: 0,
        rows,
        from,
        to: from,
    }
}
