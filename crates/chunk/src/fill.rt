// The whole chunk in a buffer of its length.
ghost use Rattle.std.specs.Prelude.{◌≡◌, true, ◌+◌, ◌*◌, ◌^◌, ◌≤◌, ◌<◌, length};
ghost use Rattle.crc.specs.Right.{already_right};
ghost use Rattle.structs.specs.Sizes.{is_inode};
ghost use Rattle.inode.specs.Dinode.{time_storable};
ghost use Rattle.chunk.specs.Chunk.{summary_draw, contents, chunk_places, DrawnAs};

use crate::inodes::{put_bitmap, put_root, put_summary};
use crate::slots::free_slots;
use chunk_generation::draw;
use crc_sums::{same_sums, sums_at};
use inode::dinode::off;
use params::Timestamp;

// The chunk's generations, in the order in which they are drawn, and the state after them.
#[derive(Clone, Copy)]
struct Generations {
    chunk: u32,
    bitmap: u32,
    summary: u32,
    state: u64,
}

fn draw_three(seed: u64) -> Generations
    ensures { DrawnAs seed result.chunk result.bitmap result.summary result.state }
{
    let a = draw(seed);
    let b = draw(a.state);
    let c = draw(b.state);
    Generations {
        chunk: a.value,
        bitmap: b.value,
        summary: c.value,
        state: c.state,
    }
}

// Where the checksums of the chunk stand.
fn places_of(size: usize) -> [usize; 64]
    requires { size ≤ 2048 }
    ensures { result ≡ chunk_places size }
{
    std::array::from_fn(|k| off::CRC + k * size)
}

// The state after the draws, and whether every checksum of the chunk stood there already.
#[derive(Clone, Copy)]
pub struct Filled {
    pub state: u64,
    pub right: bool,
}

// All slots free, and the three inodes in use over theirs. The checksums are looked at before anything is zeroed.
pub(crate) fn fill_chunk(
    first: u64,
    size: usize,
    flags2: u64,
    time: Timestamp,
    uuid: &[u8; 16],
    seed: u64,
    buf: &mut [u8],
) -> Filled
    requires { (is_inode size ≡ true) × (length buf.old ≡ 64 * size) × (first + 64 < 2 ^ 64) × (time_storable flags2 time ≡ true) }
    ensures { (result.right ≡ already_right (chunk_places size) buf.old
        (contents first size flags2 time uuid.now seed)) × (result.state ≡ (summary_draw seed).state)
        × (buf.new ≡ contents first size flags2 time uuid.now seed) }
{
    let g = draw_three(seed);
    let places = places_of(size);
    let before = sums_at(buf, &places);
    free_slots(first, g.chunk, uuid, size, buf);
    put_root(first, flags2, time, uuid, size, buf);
    put_bitmap(first, flags2, g.bitmap, time, uuid, size, buf);
    put_summary(first, flags2, g.summary, time, uuid, size, buf);
    let right = same_sums(buf, &places, &before);
    Filled {
        state: g.state,
        right,
    }
}
