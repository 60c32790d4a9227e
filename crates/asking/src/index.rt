// Bytes, directory and record, kept together once 10 has not refused them. Of any such three, questions answer something safe, and
// of what opening gave together exactly what the set says.
ghost use Rattle.std.specs.Prelude.{◌≡◌, ◌*◌, ◌<◌, ◌≤◌, false, true, get_or, IfOk, IfErr};
ghost use Rattle.spec.specs.declared.Refusal.TheVariants.{Broken};
ghost use Rattle.spec.specs.Set.{contains, rank, next};
ghost use Rattle.spec.specs.Reading.{count_of_blocks, AreBytes};
ghost use Rattle.spec.specs.Answers.{broken};
ghost use Rattle.words.specs.Part.{placed};
ghost use Rattle.directory.specs.Parts.{part_of, Bracket};
ghost use Rattle.asking.specs.Members.{Of, Member, Looked};

use spec::{Record, Refusal};
use words::block::ROWS;

// The file's bytes, and the directory and the record that opening gave. That bytes fit stands here because a proof does not learn it
// from the field's type.
#[derive(Clone, Copy)]
pub struct Index<'a> {
    pub bytes: &'a [u8],
    pub directory: &'a [u32],
    pub record: Record,
    pub ghost bytes_fit: { AreBytes bytes.now },
    pub ghost unbroken: { broken bytes.now directory.now «record» ≡ false },
}

impl<'a> Index<'a> {
    // The three together, or 10.
    pub fn new(bytes: &'a [u8], directory: &'a [u32], record: Record) -> Result<Self, Refusal>
        ensures is { IfOk result (λ i. (i.bytes.now ≡ bytes.now) × (i.directory.now ≡ directory.now) × (i.«record» ≡ «record»)) }
        ensures refused { IfErr result (λ e. (e ≡ Broken) × (broken bytes.now directory.now «record» ≡ true)) }
    {
        if directory::broken(bytes, directory, record) {
            return Err(Refusal::Broken);
        }
        Ok(Index {
            bytes,
            directory,
            record,
        })
    }

    // The data of a block.
    pub fn part(self, block: usize) -> &'a [u8]
        requires { block < count_of_blocks self.«record».row_count }
        ensures { result.now ≡ part_of self.entry.bytes.now self.entry.directory.now self.entry.«record».data_start block }
    {
        directory::part(self.bytes, self.directory, self.record.data_start, block)
    }

    // The number of rows in the blocks before one, or in all.
    pub fn rows_before(self, block: usize) -> u32
        requires { block ≤ count_of_blocks self.«record».row_count }
        ensures { result ≡ get_or self.entry.directory.now (2 * block) 0 }
    {
        self.directory[2 * block]
    }

    // The block that has a rank, if one has it.
    pub fn find_block(self, rank: u32) -> usize
        requires { 0 < count_of_blocks self.«record».row_count }
        ensures { Bracket self.entry.directory.now (count_of_blocks self.entry.«record».row_count) rank result }
    {
        let blocks = words::block::block_count(self.record.row_count);
        directory::find_block(self.directory, blocks, rank)
    }

    // Whether a row is in the set.
    pub fn contains(self, row: u32) -> bool
        ensures { Of self.entry.bytes.now self.entry.directory.now self.entry.«record» (λ xs. result ≡ contains row xs) }
    {
        if self.record.row_count <= row {
            return false;
        }
        let part = self.part((row / ROWS) as usize);
        blocks::contains(part, (row % ROWS) as u16)
    }

    // The number of members below a row.
    pub fn rank(self, row: u32) -> u32
        ensures { Of self.entry.bytes.now self.entry.directory.now self.entry.«record» (λ xs. result ≡ rank row xs) }
    {
        if self.record.row_count <= row {
            return self.record.populated;
        }
        let block = (row / ROWS) as usize;
        let below = blocks::rank(self.part(block), (row % ROWS) as u16);
        self.rows_before(block).wrapping_add(below)
    }

    // The rank of a row, if it is a member. Inlined: asking and batches both call it, and a call apart, which passes the three through
    // memory, makes a batch take up to 2.4 times as long.
    #[inline(always)]
    pub fn lookup(self, row: u32) -> Option<u32>
        ensures { Looked self.entry.bytes.now self.entry.directory.now self.entry.«record» row result }
    {
        if self.record.row_count <= row {
            return None;
        }
        let block = (row / ROWS) as usize;
        let below = blocks::lookup(self.part(block), (row % ROWS) as u16)?;
        Some(self.rows_before(block).wrapping_add(below))
    }

    // The member with a rank below n.
    pub fn select(self, rank: u32) -> u32
        requires { rank < self.«record».populated }
        ensures { Member self.entry.bytes.now self.entry.directory.now self.entry.«record» rank result }
    {
        let block = self.find_block(rank);
        let left = rank.wrapping_sub(self.rows_before(block));
        ROWS * block as u32 + blocks::select(self.part(block), left)
    }

    // The smallest member at or after a row. Where its block has none, the next has as many members below it as all blocks up to and
    // with this one have.
    pub fn next(self, row: u32) -> Option<u32>
        ensures { Of self.entry.bytes.now self.entry.directory.now self.entry.«record» (λ xs. placed result ≡ next row xs) }
    {
        if self.record.row_count <= row {
            return None;
        }
        let block = row / ROWS;
        let part = self.part(block as usize);
        if let Some(place) = blocks::next(part, (row % ROWS) as u16) {
            return Some(ROWS * block + place);
        }
        let end = self.rows_before(block as usize + 1);
        if self.record.populated <= end {
            return None;
        }
        Some(self.select(end))
    }
}
