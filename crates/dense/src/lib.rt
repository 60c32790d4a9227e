// A dense block: 1,024 mini-blocks of ten bytes, each a word of 64 bits and the number of the block's rows before it. Its questions
// take its part of the file, 10,240 bytes. Of any such bytes they answer something safe, and of a block's data what its places say.
#![tactic(auto)]

ghost use Rattle.std.specs.Prelude.{MatchOption, ◌≡◌, ◌+◌, ◌%◌, ◌^◌, ◌<◌, ◌≤◌, true, map, length};
ghost use Rattle.spec.specs.Set.{rising, contains, rank, lookup, select, next};
ghost use Rattle.spec.specs.Layout.{size, dense_data};
ghost use Rattle.spec.specs.Reading.{is_content};
ghost use Rattle.words.specs.Part.{Of, placed, Inside, NeverFalls, InBlock, Batched, Paged};
ghost use Rattle.dense.specs.Mini.{LastMini, FirstFull};

use mini::bits;

// A dense block's data, as its part of the file has them. The numbers are the format's own: 1,024 mini-blocks of ten bytes, the last of them 1,023.
pub type Data = [u8; 10240];

// A part as a dense block's data: 5,119 places, the most of a sparse block, take 10,238 bytes.
pub fn data(part: &[u8]) -> Option<&Data>
    ensures { MatchOption result (length part.now ≡ 10240 → ⊥) (λ d. (d.now ≡ part.now) × (length part.now ≡ 10240)) }
{
    part.as_array()
}

// Whether a place is in the block.
pub fn contains(part: &Data, place: u16) -> bool
    ensures { Of part.now (λ ps. result ≡ contains place ps) }
{
    let word = words::le::read(part, 10 * (place / 64) as usize, 8);
    bits::get_bit_at(word, place % 64)
}

// How many of the block's places are below a place.
pub fn rank(part: &Data, place: u16) -> u32
    ensures { Of part.now (λ ps. result ≡ rank place ps) }
{
    let m = mini::mini_block(part, place / 64);
    m.rank as u32 + bits::rank_u64(m.bitvec, place % 64) as u32
}

// The rank of a place, if it is in the block.
pub fn lookup(part: &Data, place: u16) -> Option<u32>
    ensures { Of part.now (λ ps. placed result ≡ lookup place ps) }
{
    let m = mini::mini_block(part, place / 64);
    let p = place % 64;
    if bits::get_bit_at(m.bitvec, p) {
        return Some(m.rank as u32 + bits::rank_u64(m.bitvec, p) as u32);
    }
    None
}

// The last mini-block whose running count is at or below k: empty ones before it share that count. Of a block's data the first
// is always one, with nothing before it; of other bytes the first stands for none.
fn find_mini(part: &Data, k: u32) -> u16
    ensures { LastMini part.now k result }
{
    let (minis, _) = part.as_chunks::<10>();
    let after = minis.partition_point(|ten| words::le::u16_at(ten, 8) as u32 <= k);
    after.saturating_sub(1) as u16
}

// The place with k of the block's places below it; 0 where there is none, as `select` of a set says.
pub fn select(part: &Data, k: u32) -> u32
    ensures inside { result < size }
    ensures exact { Of part.now (λ ps. result ≡ select k ps) }
{
    let at = find_mini(part, k);
    let m = mini::mini_block(part, at);
    let left = k.wrapping_sub(m.rank as u32);
    if m.bitvec.count_ones() <= left {
        return 0;
    }
    64 * at as u32 + bits::select_u64(m.bitvec, left as u16) as u32
}

// The first place of the block at or after a place.
pub fn next(part: &Data, place: u16) -> Option<u32>
    ensures inside { Inside result }
    ensures exact { Of part.now (λ ps. placed result ≡ next place ps) }
{
    let mut from = place % 64;
    for m in place / 64..1024 {
        let word = words::le::read(part, 10 * m as usize, 8);
        if let Some(at) = bits::next_u64(word, from) {
            return Some(64 * m as u32 + at as u32);
        }
        from = 0;
    }
    None
}

// Whether the block's contents are right: running counts, as many bits as the entry says, none at or past the end.
pub fn content_ok(part: &Data, rows: u32, end: u32) -> bool
    requires { (5120 ≤ rows) × (end ≤ 65536) }
    ensures { result ≡ is_content rows end part.now }
{
    let mut seen: u32 = 0;
    for m in 0..1024 {
        let x = mini::mini_block(part, m);
        if x.rank as u32 != seen {
            return false;
        }
        if !bits::none_from(x.bitvec, 64 * m as u32, end) {
            return false;
        }
        seen += x.bitvec.count_ones();
    }
    seen == rows
}

// The dense data of the rows of one block, which fill out. Says the running count past the last mini-block, which is 0 for a full block:
// that sum alone is meant to wrap.
pub fn write(rows: &[u32], out: &mut [u8]) -> u16
    requires out_long { length out.old ≡ 10240 }
    requires rows_rise { rising 0 size (map (λ r. r % size) rows.now) ≡ true }
    ensures wrote { out.new ≡ dense_data (map (λ r. r % size) rows.now) }
    ensures total { result ≡ length rows.now % 2 ^ 16 }
{
    let mut before: u16 = 0;
    let mut i = 0;
    for m in 0..1023 {
        let g = mini::gather(rows, i, m);
        let after = before + g.word.count_ones() as u16;
        mini::put(out, m, before, g.word);
        before = after;
        i = g.next;
    }
    let g = mini::gather(rows, i, 1023);
    mini::put(out, 1023, before, g.word);
    before.wrapping_add(g.word.count_ones() as u16)
}

// Questions that never fall, rows of the block that begins at row base: hits go to the front of rows, their ranks, counted on from
// first in 32 bits, to the front of ranks; returns their number.
pub fn batch(
    part: &Data,
    questions: &[u32],
    base: u32,
    first: u32,
    rows: &mut [u32],
    ranks: &mut [u32],
) -> usize
    requires base_fits { base + 65536 ≤ 2 ^ 32 }
    requires never_falls { NeverFalls questions.now × InBlock base questions.now }
    requires room { (length questions.now ≤ length rows.old) × (length questions.now ≤ length ranks.old) }
    ensures { Batched part.now questions.now base first rows.old ranks.old rows.new ranks.new result }
{
    // Counted by hand: it moves only at a hit, which fills both lists at it.
    let mut n = 0;
    for row in questions {
        if let Some(at) = lookup(part, (*row - base) as u16) {
            rows[n] = *row;
            ranks[n] = first.wrapping_add(at);
            n += 1;
        }
    }
    n
}

// The first mini-block from one on that has rows, with its word.
fn next_word(part: &Data, from: u16) -> Option<(u16, u64)>
    ensures { FirstFull part.now from result }
{
    for m in from..1024 {
        let word = words::le::read(part, 10 * m as usize, 8);
        if word != 0 {
            return Some((m, word));
        }
    }
    None
}

// Fills out with the rows of the block that begins at row base, from that with `from` rows of the block below it on.
pub fn page(part: &Data, base: u32, from: u32, out: &mut [u32])
    requires base_fits { base + 65536 ≤ 2 ^ 32 }
    ensures { Paged part.now base from out.old out.new }
{
    let mut m = find_mini(part, from);
    let x = mini::mini_block(part, m);
    let mut word = bits::clear_lowest(x.bitvec, from.wrapping_sub(x.rank as u32));
    for row in out.iter_mut() {
        if word == 0 {
            let Some((next, rows)) = next_word(part, m + 1) else {
                return;
            };
            m = next;
            word = rows;
        }
        *row = base + 64 * m as u32 + word.trailing_zeros();
        word &= word - 1;
    }
}
