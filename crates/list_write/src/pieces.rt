// The records of each piece.
ghost use Rattle.std.specs.Prelude.{◌≡◌, ◌++◌, ◌+◌, ◌*◌, ◌<◌, ◌≤◌, ◌^◌, length};
ghost use Rattle.endian.specs.Bytes.{patch};
ghost use Rattle.geometry_layout.specs.Places.{byte_of};
ghost use Rattle.list_records.specs.Records.{Wb, FL, record_bytes, list_bytes, block_records};
ghost use Rattle.list_spec.specs.Listing.{list_piece};
ghost use Rattle.list_lengths.specs.Lengths.{flush_size, record_head_size, blocks_length};
ghost use Rattle.list_lengths.specs.Pieces.{listed_length, part_length, format_number};
ghost use Rattle.list_write.specs.Writing.{part_bytes, zero_heads};

use crate::split::{put_block, put_blocks, put_head};
use arith::numbers::{min_u64, round_down};
use geometry_counts::inodes::root_chunk_of;
use list_lengths::parts::sizes_of;
use list_records::{FLUSH_MARK, HEAD_SIZE, MARK_SIZE, ZEROS_MARK};
use run::Run;

// So much is zeroed at each end of the device.
const WHACK_SIZE: u64 = 131072;

// The byte offset of block b of group k.
fn byte_of(bs: usize, agsize: u64, k: u64, b: u64) -> u64
    requires { (k * agsize + b < 2 ^ 64) × ((k * agsize + b) * bs < 2 ^ 64) }
    ensures { result ≡ byte_of bs agsize k b }
{
    (k * agsize + b) * (bs as u64)
}

// The heads of the three records of zeros: at the start and the end of the device, and over the log.
fn put_zeros(bs: usize, device: u64, log: u64, n: u64, buf: &mut [u8])
    requires { 3 * record_head_size ≤ length buf.old }
    ensures { buf.new ≡ patch 0 (zero_heads bs device log n) buf.old }
{
    let end = round_down(device, bs as u64);
    let tail = round_down(end.saturating_sub(WHACK_SIZE), bs as u64);
    put_head(ZEROS_MARK, log, n, 2 * HEAD_SIZE, buf);
    put_head(ZEROS_MARK, tail, end.saturating_sub(tail), HEAD_SIZE, buf);
    put_head(ZEROS_MARK, 0, min_u64(WHACK_SIZE, end), 0, buf);
}

// Zeros at the start and the end of the device and over the log, n bytes at `at`, and the log's first block.
fn put_opening(bs: usize, device: u64, at: u64, n: u64, part: &[u8], buf: &mut [u8])
    requires { length buf.old ≡ 3 * record_head_size + (record_head_size + length part.now) }
    ensures { buf.new ≡ zero_heads bs device at n ++ record_bytes (Wb at part.now) }
{
    put_block(at, part, 3 * HEAD_SIZE, buf);
    put_zeros(bs, device, at, n, buf);
}

// A flush, the first n blocks of the disk, and a flush; the last is written first.
fn put_closing(bs: usize, n: usize, part: &[u8], buf: &mut [u8])
    requires { (0 < bs) × (n * bs ≤ 2 ^ 64) × (n * bs ≤ length part.now)
        × (length buf.old ≡ flush_size + blocks_length bs n + flush_size) }
    ensures { buf.new ≡ record_bytes FL ++ (list_bytes (block_records bs 0 n part.now) ++ record_bytes FL) }
{
    let end = buf.len() - MARK_SIZE;
    endian::put16(buf, end, FLUSH_MARK);
    put_blocks(bs, 0, n, part, MARK_SIZE, buf);
    endian::put16(buf, 0, FLUSH_MARK);
}

// The records of piece k, from its part.
pub(crate) fn put_piece(run: Run, device: u64, k: u64, part: &[u8], buf: &mut [u8])
    requires { (format_number run ≡ 0) × (k < run.geometry.agcount + 3) × (part.now ≡ part_bytes run k)
        × (length part.now ≡ part_length run.geometry k) × (length buf.old ≡ listed_length run.geometry k) }
    ensures { buf.new ≡ list_bytes (list_piece run device k) }
{
    let g = run.geometry;
    let s = sizes_of(g.features, g.sectsize, g.inodesize, g.blocksize);
    if k == 0 {
        let at = byte_of(s.block, g.agsize, g.logagno, g.log_agbno);
        put_opening(
            s.block,
            device,
            at,
            g.logblocks * (s.block as u64),
            part,
            buf,
        );
        return;
    }
    if k <= g.agcount {
        let at = byte_of(s.block, g.agsize, k - 1, 0);
        put_blocks(s.block, at, s.head, part, 0, buf);
        return;
    }
    if k - 1 == g.agcount {
        let b = root_chunk_of(g.features, g.sectsize, g.inodesize, g.blocksize as u64);
        let at = byte_of(s.block, g.agsize, 0, b);
        put_blocks(s.block, at, s.chunk, part, 0, buf);
        return;
    }
    put_closing(s.block, s.header, part, buf);
}
