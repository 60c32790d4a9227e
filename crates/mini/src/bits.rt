// A word's 64 bits as a set of places: place p is in the set where bit p is set.
ghost use Rattle.std.specs.Prelude.{◌≡◌, cond, ℕ, ◌+◌, ◌^◌, ◌<◌, ◌≤◌, length, drop, IfSome};
ghost use Rattle.spec.specs.Set.{contains, rank, select, next, below};
ghost use Rattle.spec.specs.Reading.{bits};
ghost use Rattle.words.specs.Part.{placed};

// Whether place n is in the set.
pub fn get_bit_at(input: u64, n: u16) -> bool
    requires { n < 64 }
    ensures { result ≡ contains n (bits 64 0 input) }
{
    input & (1 << n) != 0
}

// The word of the set with place n besides.
pub fn set_bit_at(input: u64, n: u16) -> u64
    requires { n < 64 }
    ensures { result ≡ cond (contains n (bits 64 0 input)) input (input + 2 ^ n) }
{
    input | (1 << n)
}

// How many places below el are in the set.
pub fn rank_u64(bitvec: u64, el: u16) -> u16
    requires { el < 64 }
    ensures { result ≡ rank el (bits 64 0 bitvec) }
{
    let mask = (1 << el) - 1;
    (bitvec & mask).count_ones() as u16
}

// The place in the set with k of the set below it.
pub fn select_u64(bitvec: u64, k: u16) -> u16
    requires { k < length (bits 64 0 bitvec) }
    ensures { result ≡ select k (bits 64 0 bitvec) }
{
    let mut left = bitvec;
    for _ in 0..k {
        left &= left - 1;
    }
    left.trailing_zeros() as u16
}

// The word of the set without its first n places.
pub fn clear_lowest(bitvec: u64, n: u32) -> u64
    ensures { (p : ℕ) → bits 64 p result ≡ drop n (bits 64 p bitvec) }
{
    let mut left = bitvec;
    for _ in 0..n {
        if left == 0 {
            return 0;
        }
        left &= left - 1;
    }
    left
}

// The first place in the set at or after a place.
pub fn next_u64(bitvec: u64, from: u16) -> Option<u16>
    requires { from < 64 }
    ensures inside { IfSome result (λ p. p < 64) }
    ensures first { placed result ≡ next from (bits 64 0 bitvec) }
{
    let left = (bitvec >> from) << from;
    if left == 0 {
        return None;
    }
    Some(left.trailing_zeros() as u16)
}

// Whether no place is at or past an end, where the word's own first place is `from`.
pub fn none_from(word: u64, from: u32, end: u32) -> bool
    requires { (from < 65536) × (end ≤ 65536) }
    ensures { result ≡ below end (bits 64 from word) }
{
    if from + 64 <= end {
        return true;
    }
    if end <= from {
        return word == 0;
    }
    word >> (end - from) == 0
}
