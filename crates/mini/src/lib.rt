// The mini-block of a dense block: ten bytes, which are a word of 64 bits and the number of the block's rows in earlier mini-blocks.
#![tactic(auto)]

pub mod bits;

ghost use Rattle.std.specs.Prelude.{◌≡◌, true, ◌*◌, ◌<◌, length};
ghost use Rattle.std.proofs.lemmas.List.Edits.{sets};
ghost use Rattle.spec.specs.Set.{rising, rank};
ghost use Rattle.spec.specs.Layout.{size};
ghost use Rattle.mini.specs.Mini.{mini_in, mini_bytes, MiniAt, places, Gathers};

use words::block::ROWS;

// A word, and the number of rows before it.
#[derive(Debug, Clone, Copy, PartialEq, Eq)]
pub struct DenseMiniBlock {
    pub bitvec: u64,
    pub rank: u16,
}

impl DenseMiniBlock {
    // The mini-block in ten bytes. Named after the Rust, and no `From`: bytes go by value, with a width in their type.
    pub fn from_bytes(data: [u8; 10]) -> Self
        ensures { result ≡ mini_in «data» }
    {
        DenseMiniBlock {
            bitvec: words::le::read(&data, 0, 8),
            rank: words::le::u16_at(&data, 8),
        }
    }

    // The ten bytes of a mini-block.
    pub fn to_bytes(self) -> [u8; 10]
        ensures { result ≡ mini_bytes self }
    {
        let mut out = [0u8; 10];
        words::le::write(&mut out, 0, 8, self.bitvec);
        words::le::put_u16(&mut out, 8, self.rank);
        out
    }
}

// Mini-block m of a block's part. A number below 1,024, and no type of it: it comes from a loop or a division that bounds it.
pub fn mini_block(part: &[u8], m: u16) -> DenseMiniBlock
    requires { (length part.now ≡ 10240) × (m < 1024) }
    ensures { MiniAt part.now m result }
{
    let (minis, _) = part.as_chunks::<10>();
    DenseMiniBlock::from_bytes(minis[m as usize])
}

// Stores mini-block m of a block: the number of rows before it, and its word.
pub fn put(out: &mut [u8], m: u16, before: u16, word: u64)
    requires { (length out.old ≡ 10240) × (m < 1024) }
    ensures { out.new ≡ sets out.old (10 * m) (mini_bytes (record { bitvec = word; rank = before })) }
{
    let start = 10 * m as usize;
    let ten = DenseMiniBlock {
        bitvec: word,
        rank: before,
    }
    .to_bytes();
    store(&mut out[start..start + 10], ten);
}

// Ten bytes into ten, as one array into another.
fn store(out: &mut [u8], ten: [u8; 10])
    requires { length out.old ≡ 10 }
    ensures { out.new ≡ ten }
{
    if let Some(place) = out.as_mut_array::<10>() {
        *place = ten;
    }
}

// A word made of rows, and the index of the first row past them: two results, each with its name, since the next mini-block
// goes on there.
#[derive(Debug, Clone, Copy, PartialEq, Eq)]
pub struct Gathered {
    pub word: u64,
    pub next: usize,
}

// The word of mini-block m, from the rows of a block from an index on, which earlier mini-blocks end before.
#[tactic(auto, using(crate::proofs::GatherLaws::rank_within))]
pub fn gather(rows: &[u32], from: usize, m: u16) -> Gathered
    requires { (m < 1024) × (rising 0 size (places rows.now) ≡ true) × (from ≡ rank (64 * m) (places rows.now)) }
    ensures { Gathers (places rows.now) m result }
{
    let mut word: u64 = 0;
    for (i, row) in rows[from..].iter().enumerate() {
        let place = row % ROWS;
        if place / 64 != m as u32 {
            return Gathered {
                word,
                next: from + i,
            };
        }
        word = bits::set_bit_at(word, (place % 64) as u16);
    }
    Gathered {
        word,
        next: rows.len(),
    }
}
