// The questions of a set in their plainest form, one row of a lent list after the other. Each is proved to be its definition of
// the crate spec, so what it answers on a worked case is what the definition says there.
ghost use Rattle.std.specs.Prelude.{◌≡◌, ◌^◌, ◌<◌, ◌≤◌, length};
ghost use Rattle.spec.specs.Set.{contains, rank};
ghost use Rattle.spec.specs.Answers.{value, numbered, found, say_select, say_lookup, say_next, all_hits};

use spec::{Number, Refusal};

// Whether d is in the set.
pub fn contains(rows: &[u32], d: u32) -> bool
    ensures { result ≡ contains d rows.now }
{
    rows.contains(&d)
}

// The number of rows below d. A set of rows has few enough that it fits: asked for, since the rows are a plain slice.
pub fn rank(rows: &[u32], d: u32) -> u32
    requires { length rows.now < 2 ^ 32 }
    ensures { result ≡ rank d rows.now }
{
    rows.iter().filter(|r| **r < d).count() as u32
}

// The rank of d, if d is in the set.
pub fn lookup(rows: &[u32], d: u32) -> Option<u32>
    requires { length rows.now < 2 ^ 32 }
    ensures { found (Ok result) ≡ say_lookup d rows.now }
{
    if contains(rows, d) {
        Some(rank(rows, d))
    } else {
        None
    }
}

// The row with k rows below it.
pub fn select(rows: &[u32], k: u32) -> Number
    ensures { numbered result ≡ say_select k rows.now }
{
    rows.get(k as usize).copied().ok_or(Refusal::Rank)
}

// The smallest row at or after t.
pub fn next(rows: &[u32], t: u32) -> Option<u32>
    ensures { found (Ok result) ≡ say_next t rows.now }
{
    rows.iter().copied().find(|r| t <= *r)
}

// The questions that are in the set go to the front of hits, and their ranks to that of ranks; returns how many. A loop of its own: each
// answer is the plain question's.
pub fn lookup_batch(rows: &[u32], questions: &[u32], hits: &mut [u32], ranks: &mut [u32]) -> usize
    requires few_rows { length rows.now < 2 ^ 32 }
    requires room { (length questions.now ≤ length hits.old) × (length questions.now ≤ length ranks.old) }
    ensures { (value result, hits.new, ranks.new)
        ≡ all_hits questions.now hits.old ranks.old rows.now }
{
    let mut n = 0;
    for q in questions {
        if contains(rows, *q) {
            hits[n] = *q;
            ranks[n] = rank(rows, *q);
            n += 1;
        }
    }
    n
}
