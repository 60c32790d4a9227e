// Blocks: how many a row count makes, and how long a block's data are.
ghost use Rattle.std.specs.Prelude.{◌≡◌};
ghost use Rattle.spec.specs.Reading.{count_of_blocks, size_of_data};

// The rows of a block, populated or not: row r is place r % ROWS of block r / ROWS, which two operators say at each use.
pub const ROWS: u32 = 65536;

// The largest row count: 65,535 blocks.
pub const LIMIT: u32 = 65535 * ROWS;

// A block of so many populated rows, or more, is dense.
pub const DENSE_FROM: usize = 5120;

// B: the row count divided by 65,536, rounded up.
pub fn block_count(row_count: u32) -> usize
    ensures { result ≡ count_of_blocks row_count }
{
    (row_count as usize).div_ceil(ROWS as usize)
}

// The data bytes of a block of n rows: two for each row, and from 5,120 rows on the 10,240 of a dense block.
pub fn data_size(n: usize) -> usize
    ensures { result ≡ size_of_data n }
{
    2 * n.min(DENSE_FROM)
}
