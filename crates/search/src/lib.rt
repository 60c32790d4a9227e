// Searches of a sparse block's places, 16-bit numbers, ascending. As std's binary_search they answer where the target is found, or
// where it would go: of places that rise, exactly, and of any bytes with an index of the places that these say, or the end.
#![tactic(auto)]

ghost use Rattle.std.specs.Prelude.{◌≡◌, cond, ◌+◌, ◌/◌, ◌^◌, ◌≤◌, ◌<◌, eqb, length, get_or, Ok, Err};
ghost use Rattle.search.specs.Search.{places_said, index_of, shifted, Finds, Probed};

// Every place, by halves: places before base are below the target, those from base + size on are above it.
// std's search, of chunks of two bytes, jumps on each half: more than twice as slow.
pub fn binary_search(part: &[u8], target: u16) -> Result<usize, usize>
    ensures { Finds part.now target 0 result }
{
    let mut base = 0;
    let mut size = part.len() / 2;
    if size == 0 {
        return Err(0);
    }
    while 1 < size {
        let half = size / 2;
        let p = value_at_idx(part, base + half);
        base += half * words::not_above(p as u32, target as u32);
        size -= half;
    }
    let p = value_at_idx(part, base);
    if p < target {
        return Err(base + 1);
    }
    answer_at(base, p, target)
}

// The search from a cursor on, where every place before it is below the target: the place at the cursor, then the next one, and
// where that is below the target too, the narrowed search.
pub fn from_cursor(part: &[u8], cursor: usize, target: u16) -> Result<usize, usize>
    requires { cursor ≤ length part.now / 2 }
    ensures { Finds part.now target cursor result }
{
    let n = part.len() / 2;
    if cursor == n {
        return Err(n);
    }
    let p = value_at_idx(part, cursor);
    if target <= p {
        return answer_at(cursor, p, target);
    }
    let next = cursor + 1;
    if next == n {
        return Err(n);
    }
    let q = value_at_idx(part, next);
    if target <= q {
        return answer_at(next, q, target);
    }
    narrowed_search(part, next, (target - q) as usize, target)
}

// Place i of a block that has more than i.
pub fn value_at_idx(part: &[u8], i: usize) -> u16
    requires { i < length part.now / 2 }
    ensures { result ≡ get_or (places_said part.now) i 0 }
{
    words::le::u16_at(part, 2 * i)
}

// The search after the cursor, whose place is below the target by gap. Places are distinct and rise, so the one gap places on is at
// least gap more, and the search is handed no more than these.
fn narrowed_search(part: &[u8], cursor: usize, gap: usize, target: u16) -> Result<usize, usize>
    requires { (cursor < length part.now / 2) × (0 < gap) × (get_or (places_said part.now) cursor 0 + gap ≡ target) }
    ensures { Finds part.now target 0 result }
{
    let left = cursor + 1;
    let right = (left + gap).min(part.len() / 2);
    shift(left, exponential_search(&part[2 * left..2 * right], target))
}

// Every place, quickest for a target near the start: the part that the probes leave, by halves. It and the narrowed search cut a part
// and shift the answer; where they cut is all there is to either.
fn exponential_search(part: &[u8], target: u16) -> Result<usize, usize>
    ensures { Finds part.now target 0 result }
{
    let left = probe(part, target);
    let right = (2 * left + 1).min(part.len() / 2);
    shift(left, binary_search(&part[2 * left..2 * right], target))
}

// Probes places 0, 2, 6, 14, .. until one is not below the target: how many places before it are known to be below, which is half
// its index, so that the target is or would go among the places from there up to the probe. A place's value ends the loop, and the
// index doubles.
fn probe(part: &[u8], target: u16) -> usize
    ensures { Probed part.now target result }
{
    let n = part.len() / 2;
    let mut left = 0;
    while 2 * left < n && value_at_idx(part, 2 * left) < target {
        left = 2 * left + 1;
    }
    left
}

// An answer of the search of a part, counted from the start of the whole. By a match: std's map, then map_err, tests which it is more
// than once, by which a search from a cursor takes up to 1.19 times as long.
fn shift(n: usize, r: Result<usize, usize>) -> Result<usize, usize>
    requires { n + index_of r < 2 ^ 64 }
    ensures { result ≡ shifted n r }
{
    match r {
        Ok(i) => Ok(n + i),
        Err(i) => Err(n + i),
    }
}

// The answer at an index whose place is not below the target, where every place before it is. By tests: from a match on p.cmp(&target)
// LLVM makes more code, up to a third slower.
fn answer_at(i: usize, p: u16, target: u16) -> Result<usize, usize>
    ensures { result ≡ cond (eqb p target) (Ok i) (Err i) }
{
    if p == target { Ok(i) } else { Err(i) }
}
