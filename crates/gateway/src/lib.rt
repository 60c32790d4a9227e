// The calls for C: a question to the bytes of a file, answered by one 64-bit number. That is the value, or 4,294,967,296 plus the
// refusal's number, and 4,294,967,296 itself for "none". A function each, since C calls them by name.
#![tactic(auto)]

ghost use Rattle.spec.specs.Answers.{CallOwes, say_contains, say_rank, say_select, say_next};

// 1 if a row is in the set, otherwise 0.
#[unsafe(no_mangle)]
pub extern "C" fn optional_index_contains(bytes: &[u8], row: u32) -> u64
    ensures { CallOwes bytes.now (say_contains row) result }
{
    codes::of_answer(one_shot::contains_once(bytes, row))
}

// The number of members below a row.
#[unsafe(no_mangle)]
pub extern "C" fn optional_index_rank(bytes: &[u8], row: u32) -> u64
    ensures { CallOwes bytes.now (say_rank row) result }
{
    codes::of_answer(one_shot::rank_once(bytes, row))
}

// The member with a rank.
#[unsafe(no_mangle)]
pub extern "C" fn optional_index_select(bytes: &[u8], rank: u32) -> u64
    ensures { CallOwes bytes.now (say_select rank) result }
{
    codes::of_answer(one_shot::select_once(bytes, rank))
}

// The smallest member at or after a row, or "none".
#[unsafe(no_mangle)]
pub extern "C" fn optional_index_next(bytes: &[u8], row: u32) -> u64
    ensures { CallOwes bytes.now (say_next row) result }
{
    codes::of_answer(one_shot::next_once(bytes, row))
}
