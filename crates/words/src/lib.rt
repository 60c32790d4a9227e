// Numbers in bytes: little-endian ones, the row count's groups of seven bits, and entries; two numbers compared; a block's numbers.
#![tactic(auto)]

pub mod block;
pub mod count;
pub mod entry;
pub mod le;

ghost use Rattle.std.specs.Prelude.{◌≡◌, leb};
ghost use Rattle.spec.specs.Set.{bit};

// 1 where a is not above b, and 0 where it is: by a difference, since LLVM makes a jump of usize::from(a <= b), and nothing foretells in
// a search which way it goes: more than twice as slow.
pub fn not_above(a: u32, b: u32) -> usize
    ensures { result ≡ bit (leb a b) }
{
    (b as usize + 4294967296 - a as usize) / 4294967296
}
