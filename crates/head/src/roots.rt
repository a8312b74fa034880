// The roots of the group's trees: each block of the head is handed on to its leaf.
ghost use Rattle.std.specs.Prelude.{◌≡◌, true, ◌+◌, ◌*◌, ◌≤◌, length};
ghost use Rattle.endian.specs.Bytes.{patch};
ghost use Rattle.geometry_layout.specs.Places.{fibt_block, rmap_block, refc_block, daddr_of};
ghost use Rattle.btree.specs.Records.{records_bytes, alloc_bytes, rmap_bytes};
ghost use Rattle.plan_free.specs.Free.{free_of, smaller};
ghost use Rattle.plan_rmap.specs.Rmap.{rmap_of};
ghost use Rattle.head_frame.specs.Frames.{FrameBounds, FewRecords};
ghost use Rattle.head_bytes.specs.Sorting.{by_size};
ghost use Rattle.head_bytes.specs.Head.{fino_magic, root_bytes, inode_root, rmap_root, refc_root, frame_blocks};
ghost use Rattle.head_bytes.specs.Parts.{block_if, roots_on, more_on};

use crate::sectors::{refc_at, rmap_at};
use btree::AllocRec;
use head_frame::Frame;
use plan::AgPlan;
use plan_free::FreeList;
use plan_rmap::RmapList;

// The address of block b of the group, in units of 512 bytes.
fn address(w: Frame, b: u32) -> u64
    requires { (FrameBounds w) × (b ≤ 10) }
    ensures { result ≡ daddr_of w.block w.agsize w.agno b }
{
    ((w.agno as u64) * w.agsize + (b as u64)) * ((w.block / 512) as u64)
}

fn comes_first(a: AllocRec, b: AllocRec) -> bool
    ensures { result ≡ smaller a b }
{
    if a.count == b.count {
        return a.start < b.start;
    }
    a.count < b.count
}

// At most two free extents, sorted by size.
fn by_size(l: FreeList) -> FreeList
    requires { l.len ≤ 2 }
    ensures { (result.len ≡ l.len) × (free_of result ≡ by_size (free_of l)) }
{
    if l.len < 2 {
        return l;
    }
    let a = l.recs[0];
    let b = l.recs[1];
    if comes_first(a, b) {
        return l;
    }
    let mut out = l;
    out.recs[0] = b;
    out.recs[1] = a;
    out
}

// Free extents into block b.
fn put_free(w: Frame, magic: u32, b: u32, uuid: &[u8; 16], l: FreeList, buf: &mut [u8])
    requires { (FrameBounds w) × (l.len ≤ 2) × (b ≤ 10) × (b * w.block + w.block ≤ length buf.old) }
    ensures { buf.new ≡ patch (b * w.block)
        (root_bytes w uuid.now magic b (records_bytes alloc_bytes (free_of l)) l.len) buf.old }
{
    let bs = w.block as usize;
    let at = (b as usize) * bs;
    let daddr = address(w, b);
    head_leaves::free_leaf(magic, daddr, w.agno, uuid, l, &mut buf[at..at + bs]);
}

// The root chunk into block b, where the group has it.
fn put_chunk(w: Frame, magic: u32, b: u32, uuid: &[u8; 16], buf: &mut [u8])
    requires { (FrameBounds w) × (b ≤ 10) × (b * w.block + w.block ≤ length buf.old) }
    ensures { buf.new ≡ patch (b * w.block) (inode_root w uuid.now magic b) buf.old }
{
    let f = w.features;
    let bs = w.block as usize;
    let at = (b as usize) * bs;
    let daddr = address(w, b);
    head_leaves::chunk_leaf(
        magic,
        daddr,
        w.agno,
        uuid,
        w.newino,
        w.has_chunk,
        f.sparse,
        &mut buf[at..at + bs],
    );
}

// Reverse mappings into block b.
fn put_maps(w: Frame, magic: u32, b: u32, uuid: &[u8; 16], l: RmapList, buf: &mut [u8])
    requires { (FrameBounds w) × (l.len ≤ 8) × (b ≤ 10) × (b * w.block + w.block ≤ length buf.old) }
    ensures { buf.new ≡ patch (b * w.block)
        (root_bytes w uuid.now magic b (records_bytes rmap_bytes (rmap_of l)) l.len) buf.old }
{
    let bs = w.block as usize;
    let at = (b as usize) * bs;
    let daddr = address(w, b);
    head_leaves::rmap_leaf(magic, daddr, w.agno, uuid, l, &mut buf[at..at + bs]);
}

// The three roots of every group: free extents by block and by size, and inodes.
pub(crate) fn put_roots(w: Frame, p: AgPlan, uuid: &[u8; 16], buf: &mut [u8])
    requires { (FrameBounds w) × (FewRecords p) × ((w.header + 3) * w.block ≤ length buf.old) }
    ensures { buf.new ≡ roots_on w p uuid.now buf.old }
{
    let free = p.free;
    let sorted = by_size(free);
    put_free(w, btree::magic::BNO, w.header, uuid, free, buf);
    put_free(w, btree::magic::CNT, w.header + 1, uuid, sorted, buf);
    put_chunk(w, btree::magic::INO, w.header + 2, uuid, buf);
}

fn put_fibt(w: Frame, uuid: &[u8; 16], buf: &mut [u8])
    requires { (FrameBounds w) × (w.features.finobt ≡ true → fibt_block w.header * w.block + w.block ≤ length buf.old) }
    ensures { buf.new ≡ block_if w.features.finobt (fibt_block w.header * w.block)
        (inode_root w uuid.now fino_magic (fibt_block w.header)) buf.old }
{
    let f = w.features;
    if f.finobt {
        put_chunk(w, btree::magic::FINO, w.header + 3, uuid, buf);
    }
}

fn put_rmap(w: Frame, l: RmapList, uuid: &[u8; 16], buf: &mut [u8])
    requires { (FrameBounds w) × (l.len ≤ 8) × (w.features.rmapbt ≡ true
        → rmap_block w.features w.header * w.block + w.block ≤ length buf.old) }
    ensures { buf.new ≡ block_if w.features.rmapbt (rmap_block w.features w.header * w.block)
        (rmap_root w uuid.now l) buf.old }
{
    let f = w.features;
    if f.rmapbt {
        let b = rmap_at(f, w.header);
        put_maps(w, btree::magic::RMAP, b, uuid, l, buf);
    }
}

// Reference counts: a leaf without records.
fn put_refc(w: Frame, uuid: &[u8; 16], buf: &mut [u8])
    requires { (FrameBounds w) × (w.features.reflink ≡ true
        → refc_block w.features w.header * w.block + w.block ≤ length buf.old) }
    ensures { buf.new ≡ block_if w.features.reflink (refc_block w.features w.header * w.block)
        (refc_root w uuid.now) buf.old }
{
    let f = w.features;
    if f.reflink {
        let b = refc_at(f, w.header);
        let none = plan_free::empty();
        put_free(w, btree::magic::REFC, b, uuid, none, buf);
    }
}

// The roots of finobt, rmapbt and reflink, where these are on.
pub(crate) fn put_more(w: Frame, p: AgPlan, uuid: &[u8; 16], buf: &mut [u8])
    requires { (FrameBounds w) × (FewRecords p) × (frame_blocks w * w.block ≤ length buf.old) }
    ensures { buf.new ≡ more_on w p uuid.now buf.old }
{
    let maps = p.rmap;
    put_fibt(w, uuid, buf);
    put_rmap(w, maps, uuid, buf);
    put_refc(w, uuid, buf);
}
