// How many blocks the parts of a run have, and how many bytes each piece of its list and the part that it is split from.
ghost use Rattle.std.specs.Prelude.{◌≡◌, ◌<◌, ◌^◌};
ghost use Rattle.list_lengths.specs.Lengths.{list_sizes, blocks_length, piece_list_length, split_part};

use geometry::log_size::{header_of, prealloc_of};
use geometry_counts::inodes::chunk_of;
use list_records::{HEAD_SIZE, MARK_SIZE};
use params::Features;

// Bytes of a block; blocks of the four header sectors, of a group's head, and of the root chunk.
#[derive(Clone, Copy)]
pub struct Sizes {
    pub block: usize,
    pub header: usize,
    pub head: usize,
    pub chunk: usize,
}

// The sizes of a disk with these features, sectors, inodes and blocks.
pub fn sizes_of(f: Features, sector: u32, inode: u32, bs: u32) -> Sizes
    ensures { result ≡ list_sizes f sector inode bs }
{
    let header = header_of(sector, bs as u64);
    let head = prealloc_of(f, sector, bs as u64);
    let chunk = chunk_of(inode, bs as u64);
    Sizes {
        block: bs as usize,
        header: header as usize,
        head: head as usize,
        chunk: chunk as usize,
    }
}

// Bytes of n records of one block each.
fn blocks_length(bs: usize, n: usize) -> usize
    requires { (bs < 2 ^ 32) × (blocks_length bs n < 2 ^ 63) }
    ensures { result ≡ blocks_length bs n }
{
    n * (HEAD_SIZE + bs)
}

// Bytes of piece k of a disk of so many groups.
pub fn length_of(f: Features, sector: u32, inode: u32, bs: u32, groups: u64, k: u64) -> usize
    ensures { result ≡ piece_list_length (list_sizes f sector inode bs) groups k }
{
    let s = sizes_of(f, sector, inode, bs);
    if k == 0 {
        return 3 * HEAD_SIZE + blocks_length(s.block, 1);
    }
    if k <= groups {
        return blocks_length(s.block, s.head);
    }
    if k - 1 == groups {
        return blocks_length(s.block, s.chunk);
    }
    MARK_SIZE + blocks_length(s.block, s.header) + MARK_SIZE
}

// Bytes of the part that piece k is split from.
pub fn part_of(f: Features, sector: u32, inode: u32, bs: u32, groups: u64, k: u64) -> usize
    ensures { result ≡ split_part (list_sizes f sector inode bs) groups k }
{
    let s = sizes_of(f, sector, inode, bs);
    if k == 0 {
        return s.block;
    }
    if k - 1 == groups {
        return s.chunk * s.block;
    }
    s.head * s.block
}
