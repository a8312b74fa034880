// The functions that bench/ calls beside the Rust's: checksum and encoders for a caller in C or Rust. A group header comes field by field,
// in its own order; a geometry as an array of its fields, with its features as 0 or 1, and a superblock's state as one of its numbers.
#![tactic(auto)]

ghost use Rattle.std.specs.Prelude.{◌≡◌, ◌+◌, length, take};
ghost use Rattle.endian.specs.Answer.{Put};
ghost use Rattle.crc.specs.Crc.{crc32c_of, stamped};
ghost use Rattle.structs.specs.Written.{Written};
ghost use Rattle.ag.specs.Sector.{sector_number};
ghost use Rattle.ag.specs.Agf.{agf_bytes};
ghost use Rattle.ag.specs.Agi.{agi_bytes};
ghost use Rattle.ag.specs.Agfl.{agfl_number, agfl_bytes};
ghost use Rattle.btree.specs.Leaf.{leaf_number, leaf_bytes};
ghost use Rattle.sb.specs.Superblock.{sb_number, sb_bytes};
ghost use Rattle.bench_ffi.specs.Fields.{features_from, geometry_from, state_from};

use ag::{Agf, Agi};
use geometry::Geometry;
use params::Features;
use sb::SbState;

#[unsafe(no_mangle)]
pub extern "C" fn zq_crc32c(buf: &[u8]) -> u32
    ensures { result ≡ crc32c_of buf.now }
{
    crc::crc32c(buf)
}

// The number of `stamp`.
#[unsafe(no_mangle)]
pub extern "C" fn zq_stamp(buf: &mut [u8], off: usize) -> u32
    ensures { Put (off + 4) (stamped off buf.old) buf.old result buf.new }
{
    let made = crc::stamp(buf, off);
    made.number
}

#[unsafe(no_mangle)]
pub extern "C" fn zq_agf(
    seqno: u32,
    blocks: u32,
    bno_root: u32,
    bno_level: u32,
    cnt_root: u32,
    cnt_level: u32,
    rmap_root: u32,
    rmap_level: u32,
    rmap_blocks: u32,
    refcount_root: u32,
    refcount_level: u32,
    refcount_blocks: u32,
    flfirst: u32,
    fllast: u32,
    flcount: u32,
    freeblks: u32,
    longest: u32,
    btreeblks: u32,
    uuid: &[u8; 16],
    sector: &mut [u8],
) -> u32
    ensures { Written (sector_number (length sector.old))
        (agf_bytes (record {
          seqno = seqno;
          length = blocks;
          bno_root = bno_root;
          bno_level = bno_level;
          cnt_root = cnt_root;
          cnt_level = cnt_level;
          rmap_root = rmap_root;
          rmap_level = rmap_level;
          rmap_blocks = rmap_blocks;
          refcount_root = refcount_root;
          refcount_level = refcount_level;
          refcount_blocks = refcount_blocks;
          flfirst = flfirst;
          fllast = fllast;
          flcount = flcount;
          freeblks = freeblks;
          longest = longest;
          btreeblks = btreeblks;
        }) uuid.now
        sector.old) sector.old result sector.new }
{
    let a = Agf {
        seqno,
        length: blocks,
        bno_root,
        bno_level,
        cnt_root,
        cnt_level,
        rmap_root,
        rmap_level,
        rmap_blocks,
        refcount_root,
        refcount_level,
        refcount_blocks,
        flfirst,
        fllast,
        flcount,
        freeblks,
        longest,
        btreeblks,
    };
    let made = a.encode(uuid, sector);
    made.number
}

#[unsafe(no_mangle)]
pub extern "C" fn zq_agi(
    seqno: u32,
    blocks: u32,
    count: u32,
    root: u32,
    level: u32,
    freecount: u32,
    newino: u32,
    free_root: u32,
    free_level: u32,
    iblocks: u32,
    fblocks: u32,
    uuid: &[u8; 16],
    sector: &mut [u8],
) -> u32
    ensures { Written (sector_number (length sector.old))
        (agi_bytes (record {
          seqno = seqno;
          length = blocks;
          count = count;
          root = root;
          level = level;
          freecount = freecount;
          newino = newino;
          free_root = free_root;
          free_level = free_level;
          iblocks = iblocks;
          fblocks = fblocks;
        }) uuid.now
        sector.old) sector.old result sector.new }
{
    let a = Agi {
        seqno,
        length: blocks,
        count,
        root,
        level,
        freecount,
        newino,
        free_root,
        free_level,
        iblocks,
        fblocks,
    };
    let made = a.encode(uuid, sector);
    made.number
}

#[unsafe(no_mangle)]
pub extern "C" fn zq_agfl(
    seqno: u32,
    uuid: &[u8; 16],
    first: u32,
    list: &[u32; 64],
    count: usize,
    sector: &mut [u8],
) -> u32
    ensures { Written (agfl_number count (length sector.old))
        (agfl_bytes seqno uuid.now first (take count list.now) sector.old) sector.old result
        sector.new }
{
    let blocks = *list;
    let made = ag::encode_agfl(seqno, uuid, first, blocks, count, sector);
    made.number
}

#[unsafe(no_mangle)]
pub extern "C" fn zq_leaf_block(
    magic: u32,
    daddr: u64,
    agno: u32,
    uuid: &[u8; 16],
    recs: &[u8],
    numrecs: u16,
    block: &mut [u8],
) -> u32
    ensures { Written (leaf_number (length recs.now) (length block.old))
        (leaf_bytes magic daddr agno uuid.now recs.now numrecs (length block.old)) block.old result
        block.new }
{
    let made = btree::leaf_block(magic, daddr, agno, uuid, recs, numrecs, block);
    made.number
}

fn features_from(fields: &[u64; 26]) -> Features
    ensures { result ≡ features_from fields.now }
{
    Features {
        finobt: fields[19] == 1,
        rmapbt: fields[20] == 1,
        reflink: fields[21] == 1,
        inobtcount: fields[22] == 1,
        bigtime: fields[23] == 1,
        nrext64: fields[24] == 1,
        sparse: fields[25] == 1,
    }
}

fn geometry_from(fields: &[u64; 26], label: &[u8; 12]) -> Geometry
    ensures { result ≡ geometry_from fields.now label.now }
{
    let features = features_from(fields);
    let text = *label;
    Geometry {
        blocksize: (fields[0] % 4294967296) as u32,
        blocklog: (fields[1] % 256) as u8,
        sectsize: (fields[2] % 4294967296) as u32,
        sectlog: (fields[3] % 256) as u8,
        lsectsize: (fields[4] % 4294967296) as u32,
        lsectlog: (fields[5] % 256) as u8,
        inodesize: (fields[6] % 4294967296) as u32,
        inodelog: (fields[7] % 256) as u8,
        inopblock: (fields[8] % 4294967296) as u32,
        inopblog: (fields[9] % 256) as u8,
        dirblocklog: (fields[10] % 256) as u8,
        dblocks: fields[11],
        agsize: fields[12],
        agcount: fields[13],
        agblklog: (fields[14] % 256) as u8,
        imaxpct: (fields[15] % 256) as u8,
        logblocks: fields[16],
        logagno: fields[17],
        log_agbno: fields[18],
        features,
        label: text,
        roomy: false, // plain: the Rust has no other sizing
    }
}

fn state_from(numbers: &[u64; 7], uuid: &[u8; 16]) -> SbState
    ensures { result ≡ state_from numbers.now uuid.now }
{
    let id = *uuid;
    SbState {
        uuid: id,
        rootino: numbers[0],
        rbmino: numbers[1],
        rsumino: numbers[2],
        icount: numbers[3],
        ifree: numbers[4],
        fdblocks: numbers[5],
        inprogress: numbers[6] == 1,
    }
}

#[unsafe(no_mangle)]
pub extern "C" fn zq_sb(
    fields: &[u64; 26],
    label: &[u8; 12],
    numbers: &[u64; 7],
    uuid: &[u8; 16],
    sector: &mut [u8],
) -> u32
    ensures { Written (sb_number (geometry_from fields.now label.now) (length sector.old))
        (sb_bytes (geometry_from fields.now label.now) (state_from numbers.now uuid.now)
        sector.old) sector.old result sector.new }
{
    let g = geometry_from(fields, label);
    let s = state_from(numbers, uuid);
    let made = sb::encode(g, s, sector);
    made.number
}
