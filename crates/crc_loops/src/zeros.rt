// Zeros at the end: found 64 at a time, and jumped by powers of two.
ghost use Rattle.std.specs.Prelude.{◌≡◌, true, ℕ, ◌+◌, ◌-◌, ◌*◌, ◌^◌, ◌%◌, ◌≤◌, ◌<◌, length, get_or, drop, replicate};
ghost use Rattle.crc_register.specs.Register.{crc_bits};
ghost use Rattle.crc_register.specs.Tables.{leap_table};

use crc_tables::leaps;

// Whether the bytes are zeros. All are read before that is asked: a turn has no branch.
fn is_zero(s: &[u8]) -> bool
    ensures { result ≡ true → (k : ℕ) → k < length s.now → get_or s.now k 0 ≡ 0 }
{
    let mut x = 0u8;
    for b in s {
        x |= *b;
    }
    x == 0
}

// How many times 64 zeros stand at the end, up to 511.
pub(crate) fn trim(s: &[u8]) -> usize
    ensures { (result < 512) × ((result * 64 ≤ length s.now)
        × (drop (length s.now - result * 64) s.now ≡ replicate (result * 64) 0)) }
{
    let mut at = s.len();
    for n in 0..511 {
        if at < 64 {
            return n;
        }
        if !is_zero(&s[at - 64..at]) {
            return n;
        }
        at -= 64;
    }
    511
}

// `v`, or 0.
fn when(bit: u32, v: u32) -> u32
    requires { bit < 2 }
    ensures { result ≡ v * bit }
{
    if bit == 1 {
        return v;
    }
    0
}

// 64 times 2^k zero bytes go into the register.
fn jump(t: &[u32; 288], k: usize, c: u32) -> u32
    requires { (t.now ≡ leap_table) × (k < 9) }
    ensures { result ≡ crc_bits (512 * 2 ^ k) c 0 }
{
    let at = k * 32;
    let mut r = 0u32;
    let mut x = c;
    for entry in &t[at..at + 32] {
        r ^= when(x % 2, *entry);
        x /= 2;
    }
    r
}

// The same where the lowest bit of `left` is set.
fn hop(t: &[u32; 288], k: usize, left: usize, c: u32) -> u32
    requires { (t.now ≡ leap_table) × (k < 9) }
    ensures { result ≡ crc_bits (512 * 2 ^ k * (left % 2)) c 0 }
{
    if left % 2 == 1 {
        return jump(t, k, c);
    }
    c
}

// `n` times 64 zero bytes.
fn leap(t: &[u32; 288], n: usize, c: u32) -> u32
    requires { (t.now ≡ leap_table) × (n < 512) }
    ensures { result ≡ crc_bits (512 * n) c 0 }
{
    let mut left = n;
    let mut x = c;
    for k in 0..9 {
        x = hop(t, k, left, x);
        left /= 2;
    }
    x
}

// The same with the table made.
pub(crate) fn jumped(n: usize, c: u32) -> u32
    requires { n < 512 }
    ensures { result ≡ crc_bits (512 * n) c 0 }
{
    let t = leaps();
    leap(&t, n, c)
}
