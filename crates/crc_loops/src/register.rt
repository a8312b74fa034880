// The register over bytes, and over bytes of which four are read as zero.
ghost use Rattle.std.specs.Prelude.{cond, ◌≡◌, ◌+◌, ◌≤◌, length};
ghost use Rattle.endian.specs.Answer.{room};
ghost use Rattle.crc_register.specs.Register.{crc_bytes, zeroed};

use crate::bytewise::{plain, plain_zeroed};
use crate::eightfold::{sliced, sliced_zeroed};
use crate::zeros::{jumped, trim};
use endian::inside;

// From so many bytes on the eight tables pay: they are stored in 1,024 instructions, the one table in 128.
const FEW: usize = 256;

fn body(from: u32, s: &[u8]) -> u32
    ensures { result ≡ crc_bytes from s.now }
{
    if s.len() < FEW {
        return plain(from, s);
    }
    sliced(from, s)
}

// The register after all of `s`: the bytes up to the zeros at the end, and the zeros.
pub fn update(from: u32, s: &[u8]) -> u32
    ensures { result ≡ crc_bytes from s.now }
{
    let n = trim(s);
    if n == 0 {
        return body(from, s);
    }
    let end = s.len() - n * 64;
    let c = body(from, &s[..end]);
    jumped(n, c)
}

fn body_zeroed(from: u32, s: &[u8], off: usize) -> u32
    requires { off + 4 ≤ length s.now }
    ensures { result ≡ crc_bytes from (zeroed off s.now) }
{
    if s.len() < FEW {
        return plain_zeroed(from, s, off);
    }
    sliced_zeroed(from, s, off)
}

fn inside_zeroed(from: u32, s: &[u8], off: usize) -> u32
    requires { off + 4 ≤ length s.now }
    ensures { result ≡ crc_bytes from (zeroed off s.now) }
{
    let n = trim(s);
    let end = s.len() - n * 64;
    if inside(end, off, 4) {
        let c = body_zeroed(from, &s[..end], off);
        return jumped(n, c);
    }
    body_zeroed(from, s, off)
}

// The register after all of `s`, with the four bytes at `off` read as zero where they lie inside.
pub fn update_zeroed(from: u32, s: &[u8], off: usize) -> u32
    ensures { result ≡ crc_bytes from (cond (room (off + 4) s.now) (zeroed off s.now) s.now) }
{
    if inside(s.len(), off, 4) {
        return inside_zeroed(from, s, off);
    }
    update(from, s)
}
