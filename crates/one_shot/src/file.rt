// A file that is accepted, and the questions to it: the row's block answers, and the rows before it are added. What an opened index
// adds may wrap, and what is added here may not, so the two share blocks and no steps of their own.
ghost use Rattle.std.specs.Prelude.{◌≡◌, ◌≤◌, ◌<◌, length, IfOk, IfErr};
ghost use Rattle.spec.specs.Set.{contains, rank, lookup, select, next};
ghost use Rattle.spec.specs.Reading.{AreBytes, part, entries_of, verdict};
ghost use Rattle.spec.specs.Answers.{number, refused};
ghost use Rattle.words.specs.Part.{placed};
ghost use Rattle.judging.specs.Phases.{judged};
ghost use Rattle.one_shot.specs.Accepted.{Accepted, Says};
ghost use Rattle.one_shot.specs.Spots.{spot_from};

use crate::spots;
use crate::spots::Spot;
use spec::{Record, Refusal};
use words::block::ROWS;

// The bytes, and the record that judging gave. That bytes fit stands here because a proof does not learn it from the field's type.
#[derive(Clone, Copy)]
pub(crate) struct File<'a> {
    pub bytes: &'a [u8],
    pub record: Record,
    ghost bytes_fit: { AreBytes bytes.now },
    ghost accepted: { Accepted bytes.now «record» },
}

impl<'a> File<'a> {
    // The file of these bytes, or opening's refusal.
    pub(crate) fn new(bytes: &'a [u8]) -> Result<Self, Refusal>
        ensures is { IfOk result (λ f. f.bytes.now ≡ bytes.now) }
        ensures refusal { IfErr result (λ e. refused (number e) ≡ judged (verdict bytes.now)) }
    {
        let record = judging::judge(bytes)?;
        Ok(File { bytes, record })
    }

    pub(crate) fn contains(self, row: u32) -> bool
        ensures { Says self.entry.bytes.now (λ xs. result ≡ contains row xs) }
    {
        if self.record.row_count <= row {
            return false;
        }
        let spot = self.of_block((row / ROWS) as u16);
        blocks::contains(self.part(spot), (row % ROWS) as u16)
    }

    pub(crate) fn rank(self, row: u32) -> u32
        ensures { Says self.entry.bytes.now (λ xs. result ≡ rank row xs) }
    {
        if self.record.row_count <= row {
            return self.record.populated;
        }
        let spot = self.of_block((row / ROWS) as u16);
        let below = blocks::rank(self.part(spot), (row % ROWS) as u16);
        (spot.rows + below as usize) as u32
    }

    pub(crate) fn lookup(self, row: u32) -> Option<u32>
        ensures { Says self.entry.bytes.now (λ xs. placed result ≡ lookup row xs) }
    {
        if self.record.row_count <= row {
            return None;
        }
        let spot = self.of_block((row / ROWS) as u16);
        let below = blocks::lookup(self.part(spot), (row % ROWS) as u16)?;
        Some((spot.rows + below as usize) as u32)
    }

    // The member with a rank below n.
    pub(crate) fn select(self, k: u32) -> u32
        requires { k < self.«record».populated }
        ensures { Says self.entry.bytes.now (λ xs. result ≡ select k xs) }
    {
        let spot = spots::of_rank(self.bytes, self.record.data_start, k);
        let left = (k as usize - spot.rows) as u32;
        ROWS * spot.number as u32 + blocks::select(self.part(spot), left)
    }

    // Where the row's block has none, the next has as many members below it as all blocks up to and with this one have.
    pub(crate) fn next(self, row: u32) -> Option<u32>
        ensures { Says self.entry.bytes.now (λ xs. placed result ≡ next row xs) }
    {
        if self.record.row_count <= row {
            return None;
        }
        let number = (row / ROWS) as u16;
        let spot = self.of_block(number);
        if let Some(place) = blocks::next(self.part(spot), (row % ROWS) as u16) {
            return Some(ROWS * number as u32 + place);
        }
        let later = self.of_block(number + 1);
        if self.record.populated as usize <= later.rows {
            return None;
        }
        Some(self.select(later.rows as u32))
    }

    // The spot of a block.
    fn of_block(self, number: u16) -> Spot
        ensures { result ≡ spot_from number 0 self.entry.«record».data_start (entries_of self.entry.bytes.now) }
    {
        spots::of_block(self.bytes, self.record.data_start, number)
    }

    // The part of a block, from its spot.
    fn part(self, spot: Spot) -> &'a [u8]
        requires { (spot.from ≤ spot.to) × (spot.to ≤ length self.bytes.now) }
        ensures { result.now ≡ part spot.from spot.to self.entry.bytes.now }
    {
        &self.bytes[spot.from..spot.to]
    }
}
