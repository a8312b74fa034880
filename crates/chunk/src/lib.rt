// The root chunk: every inode of it free, then the root directory and the realtime bitmap and summary inodes. The Rust's root_chunk of
// format.rs.
#![tactic(auto)]

ghost use Rattle.std.specs.Prelude.{◌≡◌, length};
ghost use Rattle.chunk.specs.Chunk.{summary_draw, chunk_number, chunk_bytes, chunk_places, ChunkMade};

pub mod slots; // slots.rt: one slot of the chunk, and all of them free
pub mod inodes; // inodes.rt: the three inodes in use
pub mod fill; // fill.rt: the whole chunk

use crate::fill::fill_chunk;
use crate::inodes::flags_of;
use geometry::Geometry;
use geometry_answers::is_answer;
use geometry_counts::inodes::chunk_of;
use inode_time::encode_time;
use params::Timestamp;

// The number is 0 for a chunk that was written; a refusal has the state 0.
#[derive(Clone, Copy)]
pub struct Chunked {
    pub number: u32,
    pub state: u64, // the generator's, after the draws
    pub right: bool, // every checksum stood there already; not so beside a refusal
}

// 31, 26, 27, 29, or 0.
fn refusal(g: Geometry, agbno: u64, time: Timestamp, len: usize) -> u32
    ensures { result ≡ chunk_number g agbno time len }
{
    if !is_answer(g) {
        return refusals::NO_ANSWER;
    }
    let f = g.features;
    let stored = encode_time(time, f.bigtime);
    let n = stored.number;
    if n != 0 {
        return n;
    }
    let bs = g.blocksize as u64;
    let chunk = chunk_of(g.inodesize, bs);
    if (len as u64) != chunk * bs {
        return refusals::WRONG_LENGTH;
    }
    if !endian::inside(g.agsize as usize, agbno as usize, chunk as usize) {
        return refusals::NO_PLACE;
    }
    0
}

// The chunk of inodes that starts at block `agbno` of group 0: all of its bytes. `seed` is the generator's state; the answer has the
// state after the draws for chunk, bitmap inode and summary inode, and says whether the checksums of all 64 inodes stood there already.
pub fn root_chunk(
    g: Geometry,
    agbno: u64,
    uuid: &[u8; 16],
    time: Timestamp,
    seed: u64,
    buf: &mut [u8],
) -> Chunked
    ensures { ChunkMade (chunk_number g agbno time (length buf.old)) (summary_draw seed).state (chunk_places g.inodesize)
        (chunk_bytes g agbno uuid.now time seed) buf.old result.number result.state result.right buf.new }
{
    let n = refusal(g, agbno, time, buf.len());
    if n != 0 {
        return Chunked {
            number: n,
            state: 0,
            right: false,
        };
    }
    let f = g.features;
    let first = agbno * (g.inopblock as u64);
    let size = g.inodesize as usize;
    let made = fill_chunk(first, size, flags_of(f), time, uuid, seed, buf);
    Chunked {
        number: 0,
        state: made.state,
        right: made.right,
    }
}
