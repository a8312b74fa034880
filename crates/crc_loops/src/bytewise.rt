// A byte at a time.
ghost use Rattle.std.specs.Prelude.{◌≡◌, ◌+◌, ◌≤◌, length};
ghost use Rattle.crc_register.specs.Register.{crc_bits, crc_bytes, zeroed};
ghost use Rattle.crc_register.specs.Tables.{byte_table};

use crc_tables::bytes;

// One byte goes into the register.
fn step(t: &[u32; 256], c: u32, b: u8) -> u32
    requires { t.now ≡ byte_table }
    ensures { result ≡ crc_bits 8 c b }
{
    let i = ((c ^ (b as u32)) % 256) as usize;
    t[i] ^ (c >> 8)
}

fn run(t: &[u32; 256], from: u32, s: &[u8]) -> u32
    requires { t.now ≡ byte_table }
    ensures { result ≡ crc_bytes from s.now }
{
    let mut c = from;
    for b in s {
        c = step(t, c, *b);
    }
    c
}

// All of `s`.
pub(crate) fn plain(from: u32, s: &[u8]) -> u32
    ensures { result ≡ crc_bytes from s.now }
{
    let t = bytes();
    run(&t, from, s)
}

// `s` with the four bytes at `off` read as zero.
pub(crate) fn plain_zeroed(from: u32, s: &[u8], off: usize) -> u32
    requires { off + 4 ≤ length s.now }
    ensures { result ≡ crc_bytes from (zeroed off s.now) }
{
    let t = bytes();
    let zero = [0u8; 4];
    let a = run(&t, from, &s[..off]);
    let b = run(&t, a, &zero);
    let next = off + 4;
    run(&t, b, &s[next..])
}
