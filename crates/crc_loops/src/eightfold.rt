// Eight bytes at a time, through eight tables.
ghost use Rattle.std.specs.Prelude.{◌≡◌, ◌+◌, ◌*◌, ◌≤◌, ◌<◌, length};
ghost use Rattle.endian_little.specs.Bytes.{le_at};
ghost use Rattle.crc_register.specs.Register.{crc_bits, crc_bytes, zeroed};
ghost use Rattle.crc_register.specs.Tables.{slice_table};

use crc_tables::slices;

// The entry of the byte `i` in the table `k`.
fn look(t: &[u32; 2048], k: usize, i: u32) -> u32
    requires { (t.now ≡ slice_table) × ((k < 8) × (i < 256)) }
    ensures { result ≡ crc_bits (8 + 8 * k) i 0 }
{
    t[k * 256 + (i as usize)]
}

// The four bytes of `x`, through the tables `j` to `j + 3`.
fn fold(t: &[u32; 2048], j: usize, x: u32) -> u32
    requires { (t.now ≡ slice_table) × (j < 5) }
    ensures { result ≡ crc_bits (32 + 8 * j) x 0 }
{
    let x1 = x / 256;
    let x2 = x1 / 256;
    let x3 = x2 / 256;
    let a = look(t, j + 3, x % 256);
    let b = look(t, j + 2, x1 % 256);
    let c = look(t, j + 1, x2 % 256);
    let d = look(t, j, x3);
    a ^ (b ^ (c ^ d))
}

fn wide(x: u8) -> u32
    ensures { (result ≡ x) × (result < 256) }
{
    x as u32
}

// The four bytes at `at`, the lowest first.
fn word(s: &[u8], at: usize) -> u32
    requires { at + 4 ≤ length s.now }
    ensures { result ≡ le_at 4 at s.now }
{
    let a = wide(s[at]);
    let b = wide(s[at + 1]);
    let c = wide(s[at + 2]);
    let d = wide(s[at + 3]);
    a + 256 * (b + 256 * (c + 256 * d))
}

// The bytes one by one.
fn tail(t: &[u32; 2048], from: u32, s: &[u8]) -> u32
    requires { t.now ≡ slice_table }
    ensures { result ≡ crc_bytes from s.now }
{
    let mut c = from;
    for b in s {
        let v = look(t, 0, (c ^ wide(*b)) % 256);
        c = v ^ (c >> 8);
    }
    c
}

// Eight bytes a turn, and the rest one by one.
fn eights(t: &[u32; 2048], from: u32, s: &[u8]) -> u32
    requires { t.now ≡ slice_table }
    ensures { result ≡ crc_bytes from s.now }
{
    let (chunks, rest) = s.as_chunks::<8>();
    let mut c = from;
    for eight in chunks {
        let a = fold(t, 4, c ^ word(eight, 0));
        let b = fold(t, 0, word(eight, 4));
        c = a ^ b;
    }
    tail(t, c, rest)
}

// All of `s`.
pub(crate) fn sliced(from: u32, s: &[u8]) -> u32
    ensures { result ≡ crc_bytes from s.now }
{
    let t = slices();
    eights(&t, from, s)
}

// `s` with the four bytes at `off` read as zero.
pub(crate) fn sliced_zeroed(from: u32, s: &[u8], off: usize) -> u32
    requires { off + 4 ≤ length s.now }
    ensures { result ≡ crc_bytes from (zeroed off s.now) }
{
    let t = slices();
    let zero = [0u8; 4];
    let a = eights(&t, from, &s[..off]);
    let b = eights(&t, a, &zero);
    let next = off + 4;
    eights(&t, b, &s[next..])
}
