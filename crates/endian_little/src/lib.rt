// Little-endian numbers in a lent buffer, as endian has big-endian ones: checksums are stored so. The width is a parameter of the loops,
// and every width shares their proofs. The Rust's bytes.rs.
#![tactic(auto)]

ghost use Rattle.std.specs.Prelude.{◌≡◌, ◌+◌, ◌≤◌, ◌<◌, ◌^◌, length};
ghost use Rattle.endian.specs.Answer.{Put, Got};
ghost use Rattle.endian.specs.Bytes.{patch};
ghost use Rattle.endian_little.specs.Bytes.{le_bytes, le_at};

use endian::numbers::wide;
use endian::{Read16, Read32, Read64, inside};
use refusals::WRONG_LENGTH;

fn store_le(buf: &mut [u8], off: usize, n: usize, v: u32)
    requires { off + n ≤ length buf.old }
    ensures { buf.new ≡ patch off (le_bytes n v) buf.old }
{
    let mut x = v;
    for i in 0..n {
        buf[off + i] = (x % 256) as u8;
        x /= 256;
    }
}

fn put_le(buf: &mut [u8], off: usize, n: usize, v: u32) -> u32
    ensures { Put (off + n) (patch off (le_bytes n v) buf.old) buf.old result buf.new }
{
    if inside(buf.len(), off, n) {
        store_le(buf, off, n, v);
        return 0;
    }
    WRONG_LENGTH
}

pub fn put_le16(buf: &mut [u8], off: usize, v: u16) -> u32
    ensures { Put (off + 2) (patch off (le_bytes 2 v) buf.old) buf.old result buf.new }
{
    put_le(buf, off, 2, v as u32)
}

pub fn put_le32(buf: &mut [u8], off: usize, v: u32) -> u32
    ensures { Put (off + 4) (patch off (le_bytes 4 v) buf.old) buf.old result buf.new }
{
    put_le(buf, off, 4, v)
}

fn load_le(buf: &[u8], off: usize, n: usize) -> u64
    requires { (off + n ≤ length buf.now) × (n ≤ 8) }
    ensures { (result ≡ le_at n off buf.now) × (result < 256 ^ n) }
{
    let mut x: u64 = 0;
    for b in buf[off..off + n].iter().rev() {
        x = x * 256 + wide(*b);
    }
    x
}

fn get_le(buf: &[u8], off: usize, n: usize) -> Read64
    requires { n ≤ 8 }
    ensures { (Got (off + n) (le_at n off buf.now) buf.now result.number result.value) × (result.value < 256 ^ n) }
{
    if inside(buf.len(), off, n) {
        return Read64 {
            number: 0,
            value: load_le(buf, off, n),
        };
    }
    Read64 {
        number: WRONG_LENGTH,
        value: 0,
    }
}

pub fn le16(buf: &[u8], off: usize) -> Read16
    ensures { Got (off + 2) (le_at 2 off buf.now) buf.now result.number result.value }
{
    let r = get_le(buf, off, 2);
    Read16 {
        number: r.number,
        value: r.value as u16,
    }
}

pub fn le32(buf: &[u8], off: usize) -> Read32
    ensures { Got (off + 4) (le_at 4 off buf.now) buf.now result.number result.value }
{
    let r = get_le(buf, off, 4);
    Read32 {
        number: r.number,
        value: r.value as u32,
    }
}
