// CRC32C, the checksum of every structure on disk. The Rust's crc.rs.
#![tactic(auto)]

ghost use Rattle.std.specs.Prelude.{◌≡◌, ◌&&◌, [], ◌∷◌, ◌+◌};
ghost use Rattle.endian.specs.Answer.{room, Put, Got};
ghost use Rattle.crc.specs.Crc.{crc32c_of, cksum_of, stamped, verified};
ghost use Rattle.crc.specs.Right.{stored_at, already_right};

use crc_loops::{update, update_zeroed};
use endian::{Read32, inside};
use refusals::WRONG_LENGTH;

// All bits set: the register's start.
const START: u32 = 0xffff_ffff;

// CRC32C of `data`.
pub fn crc32c(data: &[u8]) -> u32
    ensures { result ≡ crc32c_of «data».now }
{
    !update(START, data)
}

// The checksum of `buf` with its four bytes at `off` read as zero; 27 where these don't lie inside.
pub fn cksum(buf: &[u8], off: usize) -> Read32
    ensures { Got (off + 4) (cksum_of off buf.now) buf.now result.number result.value }
{
    if inside(buf.len(), off, 4) {
        return Read32 {
            number: 0,
            value: !update_zeroed(START, buf, off),
        };
    }
    Read32 {
        number: WRONG_LENGTH,
        value: 0,
    }
}

// The checksum that stands at `off`; 0 where its four bytes don't lie inside.
pub fn stored(buf: &[u8], off: usize) -> u32
    ensures { result ≡ stored_at off buf.now }
{
    let sum = endian_little::le32(buf, off);
    sum.value
}

// What stamping answers: 0 or the refusal, and whether the right checksum stood there already. A refusal says no.
#[derive(Clone, Copy)]
pub struct Stamped {
    pub number: u32,
    pub right: bool,
}

// Stores the checksum of `buf` at `off`, and says whether it stood there already; 27 where its four bytes don't lie inside, and then
// nothing has changed.
pub fn stamp(buf: &mut [u8], off: usize) -> Stamped
    ensures { (Put (off + 4) (stamped off buf.old) buf.old result.number buf.new)
        × (result.right ≡ (room (off + 4) buf.old
        && already_right (off ∷ []) buf.old (stamped off buf.old))) }
{
    if inside(buf.len(), off, 4) {
        let sum = !update_zeroed(START, buf, off);
        let stood = stored(buf, off);
        endian_little::put_le32(buf, off, sum);
        return Stamped {
            number: 0,
            right: stood == sum,
        };
    }
    Stamped {
        number: WRONG_LENGTH,
        right: false,
    }
}

// Whether the four bytes at `off` lie inside and are the checksum of `buf`.
pub fn verify(buf: &[u8], off: usize) -> bool
    ensures { result ≡ verified off buf.now }
{
    if inside(buf.len(), off, 4) {
        let stood = endian_little::le32(buf, off);
        let right = cksum(buf, off);
        return stood.value == right.value;
    }
    false
}
