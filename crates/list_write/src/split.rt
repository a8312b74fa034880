// One record, and a write that is split into its blocks.
ghost use Rattle.std.specs.Prelude.{◌≡◌, ◌+◌, ◌*◌, ◌<◌, ◌≤◌, ◌^◌, length, take, drop};
ghost use Rattle.endian.specs.Bytes.{patch};
ghost use Rattle.list_records.specs.Records.{Wb, record_bytes, list_bytes, block_records as blocks·of};
ghost use Rattle.list_lengths.specs.Lengths.{record_head_size};
ghost use Rattle.list_write.specs.Writing.{record_head};

use list_records::{BLOCK_MARK, HEAD_SIZE};

// Mark, offset and length; the last is written first.
pub(crate) fn put_head(mark: u16, offset: u64, n: u64, at: usize, buf: &mut [u8])
    requires { at + record_head_size ≤ length buf.old }
    ensures { buf.new ≡ patch at (record_head mark offset n) buf.old }
{
    endian::put64(buf, at + 10, n);
    endian::put64(buf, at + 2, offset);
    endian::put16(buf, at, mark);
}

// The bytes of `src` from `at` on.
fn copy(src: &[u8], at: usize, buf: &mut [u8])
    requires { at + length src.now ≤ length buf.old }
    ensures { buf.new ≡ patch at src.now buf.old }
{
    buf[at..at + src.len()].copy_from_slice(src);
}

// A block with its head.
pub(crate) fn put_block(offset: u64, src: &[u8], at: usize, buf: &mut [u8])
    requires { at + (record_head_size + length src.now) ≤ length buf.old }
    ensures { buf.new ≡ patch at (record_bytes (Wb offset src.now)) buf.old }
{
    copy(src, at + HEAD_SIZE, buf);
    put_head(BLOCK_MARK, offset, src.len() as u64, at, buf);
}

// Block j of a write at `offset`, as the j-th record from `at` on.
fn put_nth(bs: usize, offset: u64, src: &[u8], j: usize, at: usize, buf: &mut [u8])
    requires { (offset + j * bs < 2 ^ 64) × (j * bs + bs ≤ length src.now)
        × (at + (j * (record_head_size + bs) + (record_head_size + bs)) ≤ length buf.old) }
    ensures { buf.new ≡ patch (at + j * (record_head_size + bs))
        (record_bytes (Wb (offset + j * bs) (take bs (drop (j * bs) src.now)))) buf.old }
{
    let from = j * bs;
    put_block(
        offset + (from as u64),
        &src[from..from + bs],
        at + j * (HEAD_SIZE + bs),
        buf,
    );
}

// The n blocks of a write at `offset`, from `at` on.
pub(crate) fn put_blocks(bs: usize, offset: u64, n: usize, src: &[u8], at: usize, buf: &mut [u8])
    requires { (offset + n * bs ≤ 2 ^ 64) × (0 < bs) × (n * bs ≤ length src.now)
        × (at + n * (record_head_size + bs) ≤ length buf.old) }
    ensures { buf.new ≡ patch at (list_bytes (blocks·of bs offset n src.now)) buf.old }
{
    for j in 0..n {
        put_nth(bs, offset, src, j, at, buf);
    }
}
