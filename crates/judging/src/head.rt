// The front of a file: 5, the row count does not end, or is padded; 1, it is above the limit.
ghost use Rattle.std.specs.Prelude.{◌≡◌};
ghost use Rattle.judging.specs.Phases.{head_of};

use spec::Refusal;
use words::block::LIMIT;

// The row count, and how many bytes it takes.
#[derive(Clone, Copy, Debug, PartialEq, Eq)]
pub(crate) struct Head {
    pub row_count: u32,
    pub start: usize,
}

// The row count ends before the last two bytes, which hold the number of entries.
pub(crate) fn read(bytes: &[u8]) -> Result<Head, Refusal>
    ensures { result ≡ head_of bytes.now }
{
    if bytes.len() < 2 {
        return Err(Refusal::Header);
    }
    let end = bytes.len() - 2;
    let c = words::count::read(&bytes[..end]).map_err(|_| Refusal::Header)?;
    if c.count > LIMIT as u64 {
        return Err(Refusal::Rows);
    }
    Ok(Head {
        row_count: c.count as u32,
        start: c.start,
    })
}
