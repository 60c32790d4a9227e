// Little-endian numbers in a slice. One function reads and one writes, at any width up to eight bytes. Where to begin goes beside the
// slice: what write says of the rest is said of the whole.
ghost use Rattle.std.specs.Prelude.{◌≡◌, ◌+◌, ◌≤◌, length};
ghost use Rattle.std.proofs.lemmas.List.Edits.{sets};
ghost use Rattle.spec.specs.Layout.{bytes_of};
ghost use Rattle.spec.specs.Reading.{number_in, part};

// The number in the w bytes of s from i on.
pub fn read(s: &[u8], i: usize, w: usize) -> u64
    requires { (w ≤ 8) × (i + w ≤ length s.now) }
    ensures { result ≡ number_in (part i (i + w) s.now) }
{
    let mut n: u64 = 0;
    for byte in s[i..i + w].iter().rev() {
        n = *byte as u64 + 256 * n;
    }
    n
}

// The w lowest bytes of n, written to d from i on; the rest of d stays.
pub fn write(d: &mut [u8], i: usize, w: usize, n: u64)
    requires { i + w ≤ length d.old }
    ensures { d.new ≡ sets d.old i (bytes_of w n) }
{
    let mut rest = n;
    for byte in d[i..i + w].iter_mut() {
        *byte = (rest % 256) as u8;
        rest /= 256;
    }
}

// By `read`, and not `from_le_bytes`: what holds of little-endian numbers is proved once, for every width.
pub fn u16_at(s: &[u8], i: usize) -> u16
    requires { i + 2 ≤ length s.now }
    ensures { result ≡ number_in (part i (i + 2) s.now) }
{
    read(s, i, 2) as u16
}

// By `write`, and not `to_le_bytes`, for the same reason.
pub fn put_u16(d: &mut [u8], i: usize, n: u16)
    requires { i + 2 ≤ length d.old }
    ensures { d.new ≡ sets d.old i (bytes_of 2 n) }
{
    write(d, i, 2, n as u64)
}
