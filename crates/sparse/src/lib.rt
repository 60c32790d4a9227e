// A sparse block: its places as 16-bit numbers, ascending. Its questions take its part of the file, which is not 10,240 bytes long.
// Of any such bytes they answer something safe, and of a block's data what its places say. Plain functions of a part, as dense's are,
// and no trait or type for both: no step of the two is the same. That a part is not as long as a dense one is asked for: a type of it
// would be that one clause in a struct.
#![tactic(auto)]

ghost use Rattle.std.specs.Prelude.{◌≡◌, map, ◌+◌, ◌*◌, ◌%◌, ◌^◌, ◌≤◌, ◌<◌, length};
ghost use Rattle.spec.specs.Set.{contains, rank, lookup, select, next};
ghost use Rattle.spec.specs.Layout.{size, sparse_data};
ghost use Rattle.spec.specs.Reading.{is_content};
ghost use Rattle.words.specs.Part.{Of, placed, Inside, NeverFalls, InBlock, Batched, Paged};

use words::block::ROWS;

// Whether a place is in the block.
pub fn contains(part: &[u8], place: u16) -> bool
    requires { length part.now ≡ 10240 → ⊥ }
    ensures { Of part.now (λ ps. result ≡ contains place ps) }
{
    search::binary_search(part, place).is_ok()
}

// How many of the block's places are below a place.
pub fn rank(part: &[u8], place: u16) -> u32
    requires { length part.now ≡ 10240 → ⊥ }
    ensures { Of part.now (λ ps. result ≡ rank place ps) }
{
    let (Ok(i) | Err(i)) = search::binary_search(part, place);
    to_u32(i)
}

// The rank of a place, if it is in the block.
pub fn lookup(part: &[u8], place: u16) -> Option<u32>
    requires { length part.now ≡ 10240 → ⊥ }
    ensures { Of part.now (λ ps. placed result ≡ lookup place ps) }
{
    match search::binary_search(part, place) {
        Ok(i) => Some(to_u32(i)),
        Err(_) => None,
    }
}

// The place with k of the block's places below it; 0 where there is none, as `select` of a set says.
pub fn select(part: &[u8], k: u32) -> u32
    requires { length part.now ≡ 10240 → ⊥ }
    ensures inside { result < size }
    ensures exact { Of part.now (λ ps. result ≡ select k ps) }
{
    let i = k as usize;
    if i < part.len() / 2 {
        return search::value_at_idx(part, i) as u32;
    }
    0
}

// The first place of the block at or after a place.
pub fn next(part: &[u8], place: u16) -> Option<u32>
    requires { length part.now ≡ 10240 → ⊥ }
    ensures inside { Inside result }
    ensures exact { Of part.now (λ ps. placed result ≡ next place ps) }
{
    let (Ok(i) | Err(i)) = search::binary_search(part, place);
    if i < part.len() / 2 {
        return Some(search::value_at_idx(part, i) as u32);
    }
    None
}

// Whether the block's contents are right: places increasing, each below the next, and none at or past the end, the last below it.
pub fn content_ok(part: &[u8], rows: u32, end: u32) -> bool
    requires { (length part.now ≡ 2 * rows) × (rows ≤ 5119) }
    ensures { result ≡ is_content rows end part.now }
{
    if rows == 0 {
        return true;
    }
    let last = rows as usize - 1;
    let mut ok = true;
    for i in 0..last {
        ok &= search::value_at_idx(part, i) < search::value_at_idx(part, i + 1);
    }
    ok & ((search::value_at_idx(part, last) as u32) < end)
}

// The sparse data of the rows of one block, which fill out.
pub fn write(rows: &[u32], out: &mut [u8])
    requires { length out.old ≡ 2 * length rows.now }
    ensures { out.new ≡ sparse_data (map (λ r. r % size) rows.now) }
{
    for (i, row) in rows.iter().enumerate() {
        words::le::put_u16(out, 2 * i, (*row % ROWS) as u16);
    }
}

// Questions that never fall, rows of the block that begins at row base: hits go to the front of rows, their ranks, counted on from
// first in 32 bits, to the front of ranks; returns their number.
pub fn batch(
    part: &[u8],
    questions: &[u32],
    base: u32,
    first: u32,
    rows: &mut [u32],
    ranks: &mut [u32],
) -> usize
    requires is_sparse { length part.now ≡ 10240 → ⊥ }
    requires base_fits { base + 65536 ≤ 2 ^ 32 }
    requires never_falls { NeverFalls questions.now × InBlock base questions.now }
    requires room { (length questions.now ≤ length rows.old) × (length questions.now ≤ length ranks.old) }
    ensures { Batched part.now questions.now base first rows.old ranks.old rows.new ranks.new result }
{
    let mut n = 0;
    let mut cursor = 0;
    // Not dense's loop: the cursor goes on from answer to answer. n moves only at a hit.
    for row in questions {
        match search::from_cursor(part, cursor, (*row - base) as u16) {
            Ok(at) => {
                rows[n] = *row;
                ranks[n] = first.wrapping_add(to_u32(at));
                n += 1;
                cursor = at;
            }
            Err(next) => {
                cursor = next;
            }
        }
    }
    n
}

// Fills out with the rows of the block that begins at row base, from that with `from` rows of the block below it on.
pub fn page(part: &[u8], base: u32, from: u32, out: &mut [u32])
    requires is_sparse { length part.now ≡ 10240 → ⊥ }
    requires base_fits { base + 65536 ≤ 2 ^ 32 }
    ensures { Paged part.now base from out.old out.new }
{
    let places = part.len() / 2;
    let start = from as usize;
    if places < start {
        return;
    }
    if places - start < out.len() {
        return;
    }
    for (j, row) in out.iter_mut().enumerate() {
        *row = base + search::value_at_idx(part, start + j) as u32;
    }
}

// A block has no more places than fit; of other bytes the lowest 32 bits, by a remainder, since `as` may lose none.
fn to_u32(i: usize) -> u32
    ensures { result ≡ i % 2 ^ 32 }
{
    (i % 4294967296) as u32
}
