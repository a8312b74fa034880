// The root blocks of a group's trees, each one leaf with its records: free space, inodes, reverse mappings.
// Each says whether its checksum stood there already. 27 unless the block is one; 34 for a list of more than 64 records, or for records
// that don't fit.
#![tactic(auto)]

ghost use Rattle.std.specs.Prelude.{◌≡◌, [], ◌∷◌, ◌*◌, ◌≤◌, length, take};
ghost use Rattle.arith.specs.Choice.{bit};
ghost use Rattle.structs.specs.Encoded.{Encoded};
ghost use Rattle.btree.specs.Records.{records_bytes, alloc_bytes, inobt_bytes, rmap_bytes};
ghost use Rattle.btree.specs.Leaf.{leaf_crc_at, leaf_number, leaf_bytes};
ghost use Rattle.head_leaves.specs.Leaves.{list_number, few, chunk_rec};

use arith::choice::bit_of;
use btree::records::{ALLOC_REC, INOBT_REC, RMAP_REC};
use btree::{InobtRec, leaf_block};
use crc::Stamped;
use plan_free::FreeList;
use plan_rmap::RmapList;
use refusals::TOO_MANY_RECORDS;
use structs::is_block;

// A buffer for 64 records of the largest size.
fn record_buffer() -> [u8; 1536]
    ensures { length result ≡ 1536 }
{
    [0u8; 1536]
}

fn put_free(
    magic: u32,
    daddr: u64,
    agno: u32,
    uuid: &[u8; 16],
    l: FreeList,
    work: &mut [u8],
    block: &mut [u8],
) -> Stamped
    requires { (l.len ≤ 64) × (length work.old ≡ 1536) }
    ensures { Encoded (leaf_number (8 * l.len) (length block.old)) (leaf_crc_at ∷ [])
        (leaf_bytes magic daddr agno uuid.now (records_bytes alloc_bytes (take l.len l.recs)) l.len
        (length block.old)) block.old result.number result.right block.new }
{
    let n = l.len;
    let used = ALLOC_REC * n;
    let recs = l.recs;
    btree_records::alloc_recs_64(recs, n, &mut work[0..used]);
    leaf_block(magic, daddr, agno, uuid, &work[0..used], n as u16, block)
}

// A leaf of free extents, in the order of the list.
pub fn free_leaf(
    magic: u32,
    daddr: u64,
    agno: u32,
    uuid: &[u8; 16],
    l: FreeList,
    block: &mut [u8],
) -> Stamped
    ensures { Encoded (list_number 8 l.len (length block.old)) (leaf_crc_at ∷ [])
        (leaf_bytes magic daddr agno uuid.now (records_bytes alloc_bytes (take l.len l.recs)) l.len
        (length block.old)) block.old result.number result.right block.new }
{
    if !is_block(block.len()) {
        return Stamped {
            number: refusals::WRONG_LENGTH,
            right: false,
        };
    }
    if 64 < l.len {
        return Stamped {
            number: TOO_MANY_RECORDS,
            right: false,
        };
    }
    let mut work = record_buffer();
    put_free(magic, daddr, agno, uuid, l, &mut work, block)
}

fn put_maps(
    magic: u32,
    daddr: u64,
    agno: u32,
    uuid: &[u8; 16],
    l: RmapList,
    work: &mut [u8],
    block: &mut [u8],
) -> Stamped
    requires { (l.len ≤ 64) × (length work.old ≡ 1536) }
    ensures { Encoded (leaf_number (24 * l.len) (length block.old)) (leaf_crc_at ∷ [])
        (leaf_bytes magic daddr agno uuid.now (records_bytes rmap_bytes (take l.len l.recs)) l.len
        (length block.old)) block.old result.number result.right block.new }
{
    let n = l.len;
    let used = RMAP_REC * n;
    let recs = l.recs;
    btree_records::rmap_recs_64(recs, n, &mut work[0..used]);
    leaf_block(magic, daddr, agno, uuid, &work[0..used], n as u16, block)
}

// A leaf of reverse mappings.
pub fn rmap_leaf(
    magic: u32,
    daddr: u64,
    agno: u32,
    uuid: &[u8; 16],
    l: RmapList,
    block: &mut [u8],
) -> Stamped
    ensures { Encoded (list_number 24 l.len (length block.old)) (leaf_crc_at ∷ [])
        (leaf_bytes magic daddr agno uuid.now (records_bytes rmap_bytes (take l.len l.recs)) l.len
        (length block.old)) block.old result.number result.right block.new }
{
    if !is_block(block.len()) {
        return Stamped {
            number: refusals::WRONG_LENGTH,
            right: false,
        };
    }
    if 64 < l.len {
        return Stamped {
            number: TOO_MANY_RECORDS,
            right: false,
        };
    }
    let mut work = record_buffer();
    put_maps(magic, daddr, agno, uuid, l, &mut work, block)
}

// The root chunk's record: 64 inodes from startino on, of which the first three are in use.
fn chunk_rec(startino: u32) -> InobtRec
    ensures { result ≡ chunk_rec startino }
{
    InobtRec {
        startino,
        holemask: 0,
        count: 64,
        freecount: 61,
        free: 0xffff_ffff_ffff_fff8,
    }
}

fn put_chunk(
    magic: u32,
    daddr: u64,
    agno: u32,
    uuid: &[u8; 16],
    startino: u32,
    n: usize,
    sparse: bool,
    work: &mut [u8],
    block: &mut [u8],
) -> Stamped
    requires { (n ≤ 64) × (length work.old ≡ 1536) }
    ensures { Encoded (leaf_number (16 * n) (length block.old)) (leaf_crc_at ∷ [])
        (leaf_bytes magic daddr agno uuid.now (records_bytes (inobt_bytes sparse) (few n (chunk_rec startino))) n
        (length block.old)) block.old result.number result.right block.new }
{
    let used = INOBT_REC * n;
    let rec = chunk_rec(startino);
    let recs = [rec; 64];
    btree_records::inobt_recs_64(recs, n, sparse, &mut work[0..used]);
    leaf_block(magic, daddr, agno, uuid, &work[0..used], n as u16, block)
}

// A leaf with the root chunk's record, or with none.
pub fn chunk_leaf(
    magic: u32,
    daddr: u64,
    agno: u32,
    uuid: &[u8; 16],
    startino: u32,
    there: bool,
    sparse: bool,
    block: &mut [u8],
) -> Stamped
    ensures { Encoded (leaf_number (16 * bit there) (length block.old)) (leaf_crc_at ∷ [])
        (leaf_bytes magic daddr agno uuid.now (records_bytes (inobt_bytes sparse) (few (bit there) (chunk_rec startino))) (bit there)
        (length block.old)) block.old result.number result.right block.new }
{
    let n = bit_of(there) as usize;
    let mut work = record_buffer();
    put_chunk(
        magic, daddr, agno, uuid, startino, n, sparse, &mut work, block,
    )
}
