// The header sectors: the numbers of AGF and AGI, and each sector of the head handed on to its encoder.
ghost use Rattle.std.specs.Prelude.{◌≡◌, true, ◌+◌, ◌*◌, ◌≤◌, ◌<◌, ◌^◌, length, take};
ghost use Rattle.arith.specs.Choice.{bit};
ghost use Rattle.structs.specs.Sizes.{is_sector};
ghost use Rattle.geometry_layout.specs.Places.{rmap_block, refc_block};
ghost use Rattle.head_frame.specs.Frames.{FrameBounds, FewRecords, Counted};
ghost use Rattle.ag.specs.Agf.{agf_bytes};
ghost use Rattle.ag.specs.Agi.{agi_bytes};
ghost use Rattle.ag.specs.Agfl.{agfl_bytes};
ghost use Rattle.sb.specs.Superblock.{sb_number, sb_bytes};
ghost use Rattle.head_bytes.specs.Head.{agf_with, agi_for};
ghost use Rattle.head_bytes.specs.Parts.{sector_on, sectors_on};

use ag::{Agf, Agi};
use arith::choice::pick;
use geometry::Geometry;
use head_frame::Frame;
use params::Features;
use plan::{AgPlan, Agfl};
use sb::SbState;

// 1 where the feature is on.
pub(crate) fn flag(on: bool) -> u32
    ensures { (result ≡ bit on) × (result ≤ 1) }
{
    if on { 1 } else { 0 }
}

// The root of the reverse mappings.
pub(crate) fn rmap_at(f: Features, header: u32) -> u32
    requires { header ≤ 4 }
    ensures { (result ≡ rmap_block f header) × (result ≤ 8) }
{
    header + 3 + flag(f.finobt)
}

// The root of the reference counts.
pub(crate) fn refc_at(f: Features, header: u32) -> u32
    requires { header ≤ 4 }
    ensures { (result ≡ refc_block f header) × (result ≤ 9) }
{
    header + 3 + flag(f.finobt) + flag(f.rmapbt)
}

// The AGF, whose totals the frame has.
fn agf_of(w: Frame) -> Agf
    requires { FrameBounds w }
    ensures { result ≡ agf_with w w.list w.freeblks w.longest }
{
    let f = w.features;
    let rmap = flag(f.rmapbt);
    let refc = flag(f.reflink);
    let rmap_root = pick(f.rmapbt, rmap_at(f, w.header), 0);
    let refcount_root = pick(f.reflink, refc_at(f, w.header), 0);
    let slots = w.sector.saturating_sub(Geometry::AGFL_HEADER) / 4;
    Agf {
        seqno: w.agno,
        length: w.length,
        bno_root: w.header,
        bno_level: 1,
        cnt_root: w.header + 1,
        cnt_level: 1,
        rmap_root,
        rmap_level: rmap,
        rmap_blocks: rmap,
        refcount_root,
        refcount_level: refc,
        refcount_blocks: refc,
        flfirst: 1,
        fllast: w.list % slots,
        flcount: w.list,
        freeblks: w.freeblks,
        longest: w.longest,
        btreeblks: 0,
    }
}

fn agi_of(w: Frame) -> Agi
    requires { FrameBounds w }
    ensures { result ≡ agi_for w }
{
    let f = w.features;
    let free = flag(f.finobt);
    Agi {
        seqno: w.agno,
        length: w.length,
        count: pick(w.has_chunk, 64, 0),
        root: w.header + 2,
        level: 1,
        freecount: pick(w.has_chunk, 61, 0),
        newino: w.newino,
        free_root: pick(f.finobt, w.header + 3, 0),
        free_level: free,
        iblocks: flag(f.inobtcount),
        fblocks: pick(f.inobtcount, free, 0),
    }
}

// The first sector is the superblock.
pub(crate) fn put_sb(g: Geometry, s: SbState, ss: usize, buf: &mut [u8])
    requires { (sb_number g ss ≡ 0) × (ss ≤ length buf.old) }
    ensures { buf.new ≡ sector_on 0 ss (sb_bytes g s) buf.old }
{
    sb::encode(g, s, &mut buf[0..0 + ss]);
}

fn put_agf(a: Agf, uuid: &[u8; 16], ss: usize, buf: &mut [u8])
    requires { (is_sector ss ≡ true) × (ss + ss ≤ length buf.old) }
    ensures { buf.new ≡ sector_on ss ss (agf_bytes a uuid.now) buf.old }
{
    a.encode(uuid, &mut buf[ss..ss + ss]);
}

fn put_agi(a: Agi, uuid: &[u8; 16], ss: usize, buf: &mut [u8])
    requires { (is_sector ss ≡ true) × (2 * ss + ss ≤ length buf.old) }
    ensures { buf.new ≡ sector_on (2 * ss) ss (agi_bytes a uuid.now) buf.old }
{
    let at = 2 * ss;
    a.encode(uuid, &mut buf[at..at + ss]);
}

fn put_agfl(agno: u32, l: Agfl, uuid: &[u8; 16], ss: usize, buf: &mut [u8])
    requires { (is_sector ss ≡ true) × (l.len ≤ 64) × (3 * ss + ss ≤ length buf.old) }
    ensures { buf.new ≡ sector_on (3 * ss) ss (agfl_bytes agno uuid.now 1 (take l.len l.blocks))
        buf.old }
{
    let at = 3 * ss;
    let blocks = l.blocks;
    ag::encode_agfl(agno, uuid, 1, blocks, l.len, &mut buf[at..at + ss]);
}

// The three sectors behind it: AGF, AGI and free list.
pub(crate) fn put_sectors(w: Frame, p: AgPlan, uuid: &[u8; 16], buf: &mut [u8])
    requires { (FrameBounds w) × (FewRecords p) × (4 * w.sector ≤ length buf.old) × (Counted w p) }
    ensures { buf.new ≡ sectors_on w p uuid.now buf.old }
{
    let ss = w.sector as usize;
    let list = p.agfl;
    put_agf(agf_of(w), uuid, ss, buf);
    put_agi(agi_of(w), uuid, ss, buf);
    put_agfl(w.agno, list, uuid, ss, buf);
}
