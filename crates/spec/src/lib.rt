// The answers of the calls, the refusals, and the record and the entry that they speak of. What they mean stands in specs/.
#![tactic(auto)]

// What opening returns beside the directory: the row count, how many rows are populated, and where the data starts.
#[derive(Clone, Copy, Debug, PartialEq, Eq)]
pub struct Record {
    pub row_count: u32,
    pub populated: u32,
    pub data_start: u32,
}

// A populated block by its entry: its number, and how many rows are in it (one more than the entry stores).
#[derive(Clone, Copy, Debug, PartialEq, Eq)]
pub struct Entry {
    pub number: u16,
    pub rows: u32,
}

// Why a call gives no value, each with its number.
#[derive(Clone, Copy, Debug, PartialEq, Eq)]
pub enum Refusal {
    Rows = 1,
    Order = 2,
    Range = 3,
    Room = 4,
    Header = 5,
    Entries = 6,
    Length = 7,
    Content = 8,
    Rank = 9,
    Broken = 10,
}

// contains
pub type Answer = Result<bool, Refusal>;

// rank, select
pub type Number = Result<u32, Refusal>;

// lookup, where None is "not there"; next, where it is "none"
pub type Found = Result<Option<u32>, Refusal>;

// write, batch lookup, page
pub type Count = Result<usize, Refusal>;

// batch select
pub type Done = Result<(), Refusal>;

pub type Opened = Result<Record, Refusal>;
