// The geometry step of input records, its methods and conversions, and the two functions beside it.
ghost use Rattle.std.specs.Prelude.{◌<◌};

use crate::rows::{Answer, features, put, refused};
use geometry::Geometry;
use geometry_counts::head::{
    ag_max_usable, agfl_size, bno_block, cnt_block, fibt_block, header_blocks, ibt_block,
    min_freelist, prealloc_blocks, refc_block, rmap_block,
};
use geometry_counts::inodes::{
    chunk_blocks, cluster_align, inoalignmt, root_chunk_agbno, spino_align,
};
use geometry_counts::stripes::{bs, logsunit, lsunit_bytes, rextsize};
use geometry_places::GroupBlock;
use geometry_places::fixed::{initial_fdblocks, logstart, rootino};
use geometry_places::refusal::ag_blocks;
use geometry_places::units::{agb_to_byte, agb_to_daddr, agb_to_fsb, ino};
use replay_frames::long;
use request::parse;

// Where a label stands behind 26 numbers, and where it ends.
const LABEL: usize = 208;

const GEOMETRY: usize = 220;

// 28 number-value pairs.
const PLACES: usize = 448;

const HELPERS: usize = 16;

// The step on what the records ask for; 28 of malformed ones.
pub(crate) fn step(records: &[u8]) -> Result<Geometry, u32> {
    let r = parse(records);
    if r.number != 0 {
        return Err(r.number);
    }
    let c = Geometry::compute(r.params, r.device, r.logical, r.physical);
    if c.number != 0 {
        return Err(c.number);
    }
    Ok(c.geometry)
}

// The 19 numbers, in the geometry's own order.
fn sizes(g: Geometry) -> [u64; 19] {
    [
        u64::from(g.blocksize),
        u64::from(g.blocklog),
        u64::from(g.sectsize),
        u64::from(g.sectlog),
        u64::from(g.lsectsize),
        u64::from(g.lsectlog),
        u64::from(g.inodesize),
        u64::from(g.inodelog),
        u64::from(g.inopblock),
        u64::from(g.inopblog),
        u64::from(g.dirblocklog),
        g.dblocks,
        g.agsize,
        g.agcount,
        u64::from(g.agblklog),
        u64::from(g.imaxpct),
        g.logblocks,
        g.logagno,
        g.log_agbno,
    ]
}

fn put_label(row: &mut [u8; 16384], label: &[u8; 12]) {
    endian::put_bytes(row, LABEL, label);
}

// Every field of the geometry: 19 numbers, seven features, the label.
pub(crate) fn geometry(records: &[u8], row: &mut [u8; 16384]) -> Answer {
    let g = match step(records) {
        Ok(g) => g,
        Err(number) => return refused(number),
    };
    let label = g.label;
    put(row, 0, &sizes(g));
    put(row, 19, &features(g.features));
    put_label(row, &label);
    Answer {
        number: 0,
        length: GEOMETRY,
    }
}

// The number and the value of answer k.
fn put_value<T: Into<u64> + Drop>(row: &mut [u8; 16384], k: usize, v: Result<T, u32>)
    requires { k < 28 }
{
    match v {
        Ok(x) => put(row, 2 * k, &[0, x.into()]),
        Err(n) => put(row, 2 * k, &[u64::from(n), 0]),
    }
}

// Block size, header blocks, roots, and the head as a whole.
fn put_heads(row: &mut [u8; 16384], g: Geometry) {
    put_value(row, 0, bs(g));
    put_value(row, 1, header_blocks(g));
    put_value(row, 2, bno_block(g));
    put_value(row, 3, cnt_block(g));
    put_value(row, 4, ibt_block(g));
    put_value(row, 5, fibt_block(g));
    put_value(row, 6, rmap_block(g));
    put_value(row, 7, refc_block(g));
    put_value(row, 8, prealloc_blocks(g));
    put_value(row, 9, ag_max_usable(g));
}

// Free list, inode chunks, stripe unit, log, root directory, free blocks.
fn put_counts(row: &mut [u8; 16384], g: Geometry) {
    put_value(row, 10, agfl_size(g));
    put_value(row, 11, min_freelist(g));
    put_value(row, 12, chunk_blocks(g));
    put_value(row, 13, inoalignmt(g));
    put_value(row, 14, cluster_align(g));
    put_value(row, 15, rextsize(g));
    put_value(row, 16, lsunit_bytes(g));
    put_value(row, 17, logsunit(g));
    put_value(row, 18, spino_align(g));
    put_value(row, 19, logstart(g));
    put_value(row, 20, root_chunk_agbno(g));
    put_value(row, 21, rootino(g));
    put_value(row, 22, initial_fdblocks(g));
}

// Number and value of each method in the Rust's order, then of ag_blocks, agb_to_fsb, agb_to_byte, agb_to_daddr and ino. The parameters are
// a group, a block of it and a slot, 8 bytes each.
pub(crate) fn places(p: &[u8], records: &[u8], row: &mut [u8; 16384]) -> Answer {
    let g = match step(records) {
        Ok(g) => g,
        Err(number) => return refused(number),
    };
    let agno = long(p, 0);
    let b = GroupBlock(agno, long(p, 8));
    put_heads(row, g);
    put_counts(row, g);
    put_value(row, 23, ag_blocks(g, agno));
    put_value(row, 24, agb_to_fsb(g, b).map(|at| at.0));
    put_value(row, 25, agb_to_byte(g, b).map(|at| at.0));
    put_value(row, 26, agb_to_daddr(g, b).map(|at| at.0));
    put_value(row, 27, ino(g, b, long(p, 16)));
    Answer {
        number: 0,
        length: PLACES,
    }
}

// `log2_roundup` of a number (8 bytes) and `ag_min_blocks` of a shift (8).
pub(crate) fn helpers(p: &[u8], row: &mut [u8; 16384]) -> Answer {
    let shift = (long(p, 8) % 256) as u8;
    let log = arith::powers::log2_roundup(long(p, 0));
    put(
        row,
        0,
        &[u64::from(log), geometry::groups::ag_min_blocks(shift)],
    );
    Answer {
        number: 0,
        length: HELPERS,
    }
}
