// Runs of bytes, the fields of a structure by a table, and consecutive numbers.
ghost use Rattle.std.specs.Prelude.{◌≡◌, ◌+◌, ◌*◌, ◌≤◌, length, replicate, T};
ghost use Rattle.endian.specs.Answer.{Put};
ghost use Rattle.endian.specs.Bytes.{patch, numbers_bytes};
ghost use Rattle.endian.specs.Fields.{write_fields, table, table_inside, table_fits, PutAll};

use crate::numbers::{inside, store};
use refusals::WRONG_LENGTH;

// The bytes of `src`, in a part of their length.
#[tactic(auto)]
fn copy(part: &mut [u8], src: &[u8])
    requires { length part.old ≡ length src.now }
    ensures { part.new ≡ src.now }
{
    part.copy_from_slice(src);
}

// The bytes of `src`.
pub fn put_bytes(buf: &mut [u8], off: usize, src: &[u8]) -> u32
    ensures { Put (off + length src.now) (patch off src.now buf.old) buf.old result
        buf.new }
{
    if inside(buf.len(), off, src.len()) {
        copy(&mut buf[off..off + src.len()], src);
        return 0;
    }
    WRONG_LENGTH
}

// `n` copies of the byte `b`.
pub fn put_same(buf: &mut [u8], off: usize, n: usize, b: u8) -> u32
    ensures { Put (off + n) (patch off (replicate n b) buf.old) buf.old result buf.new }
{
    if inside(buf.len(), off, n) {
        buf[off..off + n].fill(b);
        return 0;
    }
    WRONG_LENGTH
}

fn store32_run(buf: &mut [u8], off: usize, v: &[u32])
    requires { off + 4 * length v.now ≤ length buf.old }
    ensures { buf.new ≡ patch off (numbers_bytes 4 v.now) buf.old }
{
    for (i, x) in v.iter().enumerate() {
        store(buf, off + 4 * i, 4, *x as u64);
    }
}

// The numbers `v` one after the other, each in 4 bytes.
pub fn put32_run(buf: &mut [u8], off: usize, v: &[u32]) -> u32
    ensures { Put (off + 4 * length v.now) (patch off (numbers_bytes 4 v.now) buf.old)
        buf.old result buf.new }
{
    if v.len() <= buf.len() / 4 {
        if inside(buf.len(), off, 4 * v.len()) {
            store32_run(buf, off, v);
            return 0;
        }
    }
    WRONG_LENGTH
}

// Whether the table has an offset and a width for each of `n` numbers, and each ends by `len`.
fn table_fits(len: usize, at: &[usize], n: usize) -> bool
    ensures { result ≡ table_fits len at.now n }
{
    let (pairs, rest) = at.as_chunks::<2>();
    pairs.len() == n && rest.is_empty() && pairs.iter().all(|pair| inside(len, pair[0], pair[1]))
}

fn store_all(buf: &mut [u8], end: usize, at: &[usize], v: &[u64])
    requires { (end ≤ length buf.old) × (T (table_inside end at.now)) × (length at.now ≡ 2 * length v.now) }
    ensures { buf.new ≡ write_fields (table at.now v.now) buf.old }
{
    for (i, x) in v.iter().enumerate() {
        store(buf, at[2 * i], at[2 * i + 1], *x);
    }
}

// The numbers `v`, each at the offset and in the width that the table `at` has for it: an offset, its width, an offset, its width, ..
// 27 also where the table doesn't have a pair for each number.
pub fn put_all(buf: &mut [u8], at: &[usize], v: &[u64]) -> u32
    ensures { PutAll at.now v.now buf.old result buf.new }
{
    if table_fits(buf.len(), at, v.len()) {
        store_all(buf, buf.len(), at, v);
        return 0;
    }
    WRONG_LENGTH
}
