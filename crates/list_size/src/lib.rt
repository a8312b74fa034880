// How much the run of input records will send, before its list is made: how many records, how many bytes in all, and how many of these are
// payload of `WB`. It is worked out from the geometry, in the same time for every disk.
#![tactic(auto)]

ghost use Rattle.std.specs.Prelude.{◌≡◌, ◌*◌, ◌^◌, ◌<◌, ◌≤◌};
ghost use Rattle.geometry_layout.specs.Bounds.{Bounds};
ghost use Rattle.list_spec.specs.Listing.{block_count};
ghost use Rattle.list_size.specs.Sizes.{no_size, input_size};
ghost use Rattle.list_size.specs.Closed.{most_blocks, closed_of, closed_size};

use geometry::Geometry;
use geometry::log_size::{header_of, prealloc_of};
use geometry_counts::inodes::chunk_of;
use list_records::{HEAD_SIZE, MARK_SIZE};

// Records, their bytes with every mark, offset and length, and the bytes of the blocks alone; a refusal has zeros beside its number.
#[derive(Clone, Copy)]
pub struct ListSize {
    pub number: u32,
    pub records: u64,
    pub bytes: u64,
    pub payload: u64,
}

// `WZ`: at the start and the end of the device, and over the log.
const ZEROINGS: u64 = 3;

// `FL`: before and behind the finished header blocks.
const FLUSHES: u64 = 2;

// A refusal.
pub fn refused(number: u32) -> ListSize
    ensures { result ≡ no_size number }
{
    ListSize {
        number,
        records: 0,
        bytes: 0,
        payload: 0,
    }
}

// Blocks of all heads.
fn head_blocks(groups: u64, head: u64) -> u64
    requires { groups * head < 2 ^ 63 }
    ensures { result ≡ groups * head }
{
    groups * head
}

// How many blocks are written: the log's first, the heads, the root chunk, and group 0's header blocks again.
fn block_count(g: Geometry) -> u64
    requires { Bounds g }
    ensures { result ≡ block_count g }
{
    let bs = g.blocksize as u64;
    let heads = head_blocks(g.agcount, prealloc_of(g.features, g.sectsize, bs));
    let chunk = chunk_of(g.inodesize, bs);
    let header = header_of(g.sectsize, bs);
    1 + heads + chunk + header
}

// The size of a list that writes so many blocks of bs bytes, each by a `WB`.
fn size_of(blocks: u64, bs: u64) -> ListSize
    requires { (blocks ≤ most_blocks) × (bs ≤ 16384) }
    ensures { result ≡ closed_of blocks bs }
{
    let mark = MARK_SIZE as u64;
    let head = HEAD_SIZE as u64;
    let each = head + bs;
    ListSize {
        number: 0,
        records: ZEROINGS + blocks + FLUSHES,
        bytes: ZEROINGS * head + blocks * each + FLUSHES * mark,
        payload: blocks * bs,
    }
}

// The size of the list of a run with this geometry.
fn size_in(g: Geometry) -> ListSize
    requires { Bounds g }
    ensures { result ≡ closed_size g }
{
    size_of(block_count(g), g.blocksize as u64)
}

// How much `writelist` will send for this input, or the number that it gives: 28, 1 to 26.
pub fn list_size(input: &[u8]) -> ListSize
    ensures { result ≡ input_size input.now }
{
    let run = run::accept(input);
    if run.number != 0 {
        return refused(run.number);
    }
    size_in(run.geometry)
}
