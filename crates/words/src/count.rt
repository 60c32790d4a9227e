// The row count: groups of seven bits, lowest first, the last with 128 added.
ghost use Rattle.std.specs.Prelude.{◌≡◌, ◌≤◌, length};
ghost use Rattle.std.proofs.lemmas.List.Edits.{sets};
ghost use Rattle.spec.specs.Layout.{groups};
ghost use Rattle.spec.specs.Reading.{ungroups};
ghost use Rattle.words.specs.Count.{count_in};

// A row count, and how many bytes it takes: two results, each with its name.
#[derive(Clone, Copy, Debug, PartialEq, Eq)]
pub struct RowCount {
    pub count: u64,
    pub start: usize,
}

// Why the front of some bytes is no row count.
#[derive(Clone, Copy, Debug, PartialEq, Eq)]
pub enum CountFault {
    Padded,
    Unended,
}

// The row count at the front of s, if it ends within five bytes.
pub fn read(s: &[u8]) -> Result<RowCount, CountFault>
    ensures { result ≡ count_in (ungroups 5 s.now) s.now }
{
    let mut count = 0;
    let mut weight = 1;
    for (i, byte) in s.iter().take(5).enumerate() {
        let start = i + 1;
        let b = *byte as u64;
        count += b % 128 * weight;
        if 128 <= b {
            if 1 < start && b == 128 {
                return Err(CountFault::Padded);
            }
            return Ok(RowCount { count, start });
        }
        weight *= 128;
    }
    Err(CountFault::Unended)
}

// How many bytes the shortest form of a row count takes.
pub fn size(count: u32) -> usize
    ensures { result ≡ length (groups 4 count) }
{
    match count {
        ..128 => 1,
        ..16384 => 2,
        ..2097152 => 3,
        ..268435456 => 4,
        _ => 5,
    }
}

// The shortest form, written to the front of out; its length, which goes back beside the buffer, since that is the caller's.
pub fn write(out: &mut [u8], count: u32) -> usize
    requires { length (groups 4 count) ≤ length out.old }
    ensures wrote { out.new ≡ sets out.old 0 (groups 4 count) }
    ensures long { result ≡ length (groups 4 count) }
{
    let mut rest = count;
    let mut i = 0;
    // What is left of the number ends the loop: a `for` would first need `size`, which tests it again.
    while 128 <= rest {
        out[i] = (rest % 128) as u8;
        rest /= 128;
        i += 1;
    }
    out[i] = (rest + 128) as u8;
    i + 1
}
