// A block's questions, of its part of the file: dense if that has 10,240 bytes, else sparse, since 5,119 places take 10,238. Of any
// bytes they answer something safe, and of a block's data what its places say. A function for each question: one that took the
// question as a parameter would need a promise over all questions. Part, place and base are plain: one part is asked many places,
// and a base is bounded by its block's number.
#![tactic(auto)]

ghost use Rattle.std.specs.Prelude.{◌≡◌, ◌+◌, ◌^◌, ◌≤◌, ◌<◌, length};
ghost use Rattle.spec.specs.Set.{contains, rank, lookup, select, next};
ghost use Rattle.spec.specs.Layout.{size};
ghost use Rattle.words.specs.Part.{Of, placed, Inside, NeverFalls, InBlock, Batched, Paged};

// Whether a place is in the block.
pub fn contains(part: &[u8], place: u16) -> bool
    ensures { Of part.now (λ ps. result ≡ contains place ps) }
{
    match dense::data(part) {
        Some(data) => dense::contains(data, place),
        None => sparse::contains(part, place),
    }
}

// How many of the block's places are below a place.
pub fn rank(part: &[u8], place: u16) -> u32
    ensures { Of part.now (λ ps. result ≡ rank place ps) }
{
    match dense::data(part) {
        Some(data) => dense::rank(data, place),
        None => sparse::rank(part, place),
    }
}

// The rank of a place, if it is in the block.
pub fn lookup(part: &[u8], place: u16) -> Option<u32>
    ensures { Of part.now (λ ps. placed result ≡ lookup place ps) }
{
    match dense::data(part) {
        Some(data) => dense::lookup(data, place),
        None => sparse::lookup(part, place),
    }
}

// The place with k of the block's places below it; 0 where there is none, as `select` of a set says.
pub fn select(part: &[u8], k: u32) -> u32
    ensures inside { result < size }
    ensures exact { Of part.now (λ ps. result ≡ select k ps) }
{
    match dense::data(part) {
        Some(data) => dense::select(data, k),
        None => sparse::select(part, k),
    }
}

// The first place of the block at or after a place.
pub fn next(part: &[u8], place: u16) -> Option<u32>
    ensures inside { Inside result }
    ensures exact { Of part.now (λ ps. placed result ≡ next place ps) }
{
    match dense::data(part) {
        Some(data) => dense::next(data, place),
        None => sparse::next(part, place),
    }
}

// Questions that never fall, rows of the block that begins at row base: hits go to the front of rows, their ranks, counted on from
// first in 32 bits, to the front of ranks; returns their number.
pub fn batch(
    part: &[u8],
    questions: &[u32],
    base: u32,
    first: u32,
    rows: &mut [u32],
    ranks: &mut [u32],
) -> usize
    requires base_fits { base + 65536 ≤ 2 ^ 32 }
    requires never_falls { NeverFalls questions.now × InBlock base questions.now }
    requires room { (length questions.now ≤ length rows.old) × (length questions.now ≤ length ranks.old) }
    ensures { Batched part.now questions.now base first rows.old ranks.old rows.new ranks.new result }
{
    match dense::data(part) {
        Some(data) => dense::batch(data, questions, base, first, rows, ranks),
        None => sparse::batch(part, questions, base, first, rows, ranks),
    }
}

// Fills out with the rows of the block that begins at row base, from that with `from` rows of the block below it on.
pub fn page(part: &[u8], base: u32, from: u32, out: &mut [u32])
    requires { base + 65536 ≤ 2 ^ 32 }
    ensures { Paged part.now base from out.old out.new }
{
    match dense::data(part) {
        Some(data) => dense::page(data, base, from, out),
        None => sparse::page(part, base, from, out),
    }
}
