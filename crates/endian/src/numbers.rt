// One number into a lent buffer, and out of it, the highest byte first. The width is a parameter of the loops, and every width shares their
// proofs.
ghost use Rattle.std.specs.Prelude.{◌≡◌, ◌+◌, ◌≤◌, ◌<◌, ◌^◌, length, leb};
ghost use Rattle.endian.specs.Answer.{Put, Got};
ghost use Rattle.endian.specs.Bytes.{be_bytes, be_at, patch};

// A number that was read, with 0 or the refusal beside it; the value of a refused read is 0.
#[derive(Clone, Copy)]
pub struct Read16 {
    pub number: u32,
    pub value: u16,
}

#[derive(Clone, Copy)]
pub struct Read32 {
    pub number: u32,
    pub value: u32,
}

#[derive(Clone, Copy)]
pub struct Read64 {
    pub number: u32,
    pub value: u64,
}

// Whether `n` bytes at `off` end by `len`.
pub fn inside(len: usize, off: usize, n: usize) -> bool
    ensures { result ≡ leb (off + n) len }
{
    if len < n {
        return false;
    }
    off <= len - n
}

// The low `n` bytes of `v`, where there is room for them.
pub(crate) fn store(buf: &mut [u8], off: usize, n: usize, v: u64)
    requires { off + n ≤ length buf.old }
    ensures { buf.new ≡ patch off (be_bytes n v) buf.old }
{
    let mut x = v;
    for i in (0..n).rev() {
        buf[off + i] = (x % 256) as u8;
        x /= 256;
    }
}

fn put(buf: &mut [u8], off: usize, n: usize, v: u64) -> u32
    ensures { Put (off + n) (patch off (be_bytes n v) buf.old) buf.old result buf.new }
{
    if inside(buf.len(), off, n) {
        store(buf, off, n, v);
        return 0;
    }
    refusals::WRONG_LENGTH
}

pub fn put8(buf: &mut [u8], off: usize, v: u8) -> u32
    ensures { Put (off + 1) (patch off (be_bytes 1 v) buf.old) buf.old result buf.new }
{
    put(buf, off, 1, v as u64)
}

pub fn put16(buf: &mut [u8], off: usize, v: u16) -> u32
    ensures { Put (off + 2) (patch off (be_bytes 2 v) buf.old) buf.old result buf.new }
{
    put(buf, off, 2, v as u64)
}

pub fn put32(buf: &mut [u8], off: usize, v: u32) -> u32
    ensures { Put (off + 4) (patch off (be_bytes 4 v) buf.old) buf.old result buf.new }
{
    put(buf, off, 4, v as u64)
}

pub fn put64(buf: &mut [u8], off: usize, v: u64) -> u32
    ensures { Put (off + 8) (patch off (be_bytes 8 v) buf.old) buf.old result buf.new }
{
    put(buf, off, 8, v)
}

// A byte as a number.
pub fn wide(x: u8) -> u64
    ensures { result ≡ x }
{
    x as u64
}

// The number that the `n` bytes at `off` are.
fn load(buf: &[u8], off: usize, n: usize) -> u64
    requires { (off + n ≤ length buf.now) × (n ≤ 8) }
    ensures { (result ≡ be_at n off buf.now) × (result < 256 ^ n) }
{
    let mut x: u64 = 0;
    for b in &buf[off..off + n] {
        x = x * 256 + wide(*b);
    }
    x
}

fn get(buf: &[u8], off: usize, n: usize) -> Read64
    requires { n ≤ 8 }
    ensures { (Got (off + n) (be_at n off buf.now) buf.now result.number result.value) × (result.value < 256 ^ n) }
{
    if inside(buf.len(), off, n) {
        return Read64 {
            number: 0,
            value: load(buf, off, n),
        };
    }
    Read64 {
        number: refusals::WRONG_LENGTH,
        value: 0,
    }
}

pub fn be16(buf: &[u8], off: usize) -> Read16
    ensures { Got (off + 2) (be_at 2 off buf.now) buf.now result.number result.value }
{
    let r = get(buf, off, 2);
    Read16 {
        number: r.number,
        value: r.value as u16,
    }
}

pub fn be32(buf: &[u8], off: usize) -> Read32
    ensures { Got (off + 4) (be_at 4 off buf.now) buf.now result.number result.value }
{
    let r = get(buf, off, 4);
    Read32 {
        number: r.number,
        value: r.value as u32,
    }
}

pub fn be64(buf: &[u8], off: usize) -> Read64
    ensures { Got (off + 8) (be_at 8 off buf.now) buf.now result.number result.value }
{
    get(buf, off, 8)
}
