// The head of a group, put together from its plan. The Rust's format.rs, ag_head.
#![tactic(auto)]

ghost use Rattle.std.specs.Prelude.{◌≡◌, true, eqb, ◌*◌, ◌≤◌, length, take, replicate};
ghost use Rattle.refusals.specs.Numbers.{wrong_length};
ghost use Rattle.endian.specs.Bytes.{patch};
ghost use Rattle.crc.specs.Right.{already_right};
ghost use Rattle.crc_sums.specs.Sums.{sums_in, same_sums};
ghost use Rattle.structs.specs.Encoded.{Encoded};
ghost use Rattle.structs.specs.Written.{require};
ghost use Rattle.geometry_answers.specs.Named.{is_answer};
ghost use Rattle.sb.specs.Superblock.{sb_bytes};
ghost use Rattle.plan.specs.Plan.{planned};
ghost use Rattle.plan_same.specs.Same.{is_plan};
ghost use Rattle.head_frame.specs.Frames.{frame_of, FrameBounds, FewRecords, Counted};
ghost use Rattle.head_bytes.specs.Head.{frame_blocks, head_bytes, head_length, head_number, group_head_number};
ghost use Rattle.head_bytes.specs.Parts.{sector_on, sectors_on, roots_on, more_on};
ghost use Rattle.head_bytes.specs.Places.{places_of, head_places};

pub mod roots; // roots.rt: the root blocks
pub mod sectors; // sectors.rt: superblock, AGF, AGI and free list

use crate::sectors::flag;
use crc::Stamped;
use crc_sums::{same_sums, sums_at};
use geometry::Geometry;
use geometry::log_size::prealloc_of;
use head_frame::{Frame, frame_at, frame_of};
use plan::AgPlan;
use sb::SbState;

// Zeros in the header blocks, and the four sectors over them.
fn put_headers(g: Geometry, s: SbState, w: Frame, p: AgPlan, uuid: &[u8; 16], buf: &mut [u8])
    requires { (is_answer g ≡ true) × (w.sector ≡ g.sectsize) × (FrameBounds w) × (FewRecords p)
        × (w.header * w.block ≤ length buf.old)
        × (Counted w p) }
    ensures { buf.new ≡ sectors_on w p uuid.now
        (sector_on 0 w.sector (sb_bytes g s) (patch 0 (replicate (w.header * w.block) 0) buf.old)) }
{
    let header = (w.header as usize) * (w.block as usize);
    endian::put_same(buf, 0, header, 0);
    sectors::put_sb(g, s, w.sector as usize, buf);
    sectors::put_sectors(w, p, uuid, buf);
}

// The root blocks.
fn put_trees(w: Frame, p: AgPlan, uuid: &[u8; 16], buf: &mut [u8])
    requires { (FrameBounds w) × (FewRecords p) × (frame_blocks w * w.block ≤ length buf.old) }
    ensures { buf.new ≡ more_on w p uuid.now (roots_on w p uuid.now buf.old) }
{
    roots::put_roots(w, p, uuid, buf);
    roots::put_more(w, p, uuid, buf);
}

// The whole head, for a plan of the planner.
fn fill(g: Geometry, p: AgPlan, w: Frame, uuid: &[u8; 16], s: SbState, buf: &mut [u8])
    requires { (is_plan g p ≡ true) × (w ≡ frame_of g p) × (length buf.old ≡ head_length g) }
    ensures { buf.new ≡ head_bytes g p uuid.now s }
{
    put_headers(g, s, w, p, uuid, buf);
    put_trees(w, p, uuid, buf);
}

// Where the checksums of a head stand: at the first `len` of these places.
#[derive(Clone, Copy)]
struct Places {
    at: [usize; 10],
    len: usize,
}

fn places_of(w: Frame) -> Places
    requires { FrameBounds w }
    ensures { (take result.len result.at ≡ places_of w.header w.sector w.block w.features) × (result.len ≤ 10)
        × (length result.at ≡ 10) }
{
    let f = w.features;
    let ss = w.sector as usize;
    let bs = w.block as usize;
    let bno = (w.header as usize) * bs + btree::leaf::off::CRC;
    let cnt = bno + bs;
    let ino = cnt + bs;
    let fourth = ino + bs;
    let fifth = fourth + bs;
    let agf = ss + ag::agf::CRC;
    let agi = 2 * ss + ag::agi::CRC;
    let agfl = 3 * ss + ag::agfl::off::CRC;
    let len = 7 + flag(f.finobt) + flag(f.rmapbt) + flag(f.reflink);
    Places {
        at: [
            sb::CRC,
            agf,
            agi,
            agfl,
            bno,
            cnt,
            ino,
            fourth,
            fifth,
            fifth + bs,
        ],
        len: len as usize,
    }
}

// The checksums that stand there.
fn look(p: Places, buf: &[u8]) -> [u32; 64]
    requires { (p.len ≤ 10) × (length p.at ≡ 10) }
    ensures { result ≡ sums_in 64 (take p.len p.at) buf.now }
{
    let at = p.at;
    let n = p.len;
    sums_at(buf, &at[..n])
}

// Whether these do.
fn stand(p: Places, sums: &[u32], buf: &[u8]) -> bool
    requires { (p.len ≤ 10) × (length p.at ≡ 10) }
    ensures { result ≡ same_sums (take p.len p.at) sums.now buf.now }
{
    let at = p.at;
    let n = p.len;
    same_sums(buf, &at[..n], sums)
}

// The whole head, for a plan of the planner, and whether its checksums stood there already: they are looked at before anything is zeroed.
fn refill(g: Geometry, p: AgPlan, w: Frame, uuid: &[u8; 16], s: SbState, buf: &mut [u8]) -> bool
    requires { (is_plan g p ≡ true) × (w ≡ frame_of g p) × (length buf.old ≡ head_length g) }
    ensures { (result ≡ already_right (head_places g) buf.old (head_bytes g p uuid.now s))
        × (buf.new ≡ head_bytes g p uuid.now s) }
{
    let places = places_of(w);
    let before = look(places, buf);
    fill(g, p, w, uuid, s, buf);
    stand(places, &before, buf)
}

// The same in as many bytes as the head has, else 27.
fn refill_whole(
    g: Geometry,
    p: AgPlan,
    w: Frame,
    uuid: &[u8; 16],
    s: SbState,
    buf: &mut [u8],
) -> Stamped
    requires { (is_plan g p ≡ true) × (w ≡ frame_of g p) }
    ensures { Encoded (require wrong_length (eqb (length buf.old) (head_length g)) 0) (head_places g)
        (head_bytes g p uuid.now s) buf.old result.number result.right buf.new }
{
    let f = g.features;
    let blocks = prealloc_of(f, g.sectsize, g.blocksize as u64) as usize;
    if buf.len() != blocks * (g.blocksize as usize) {
        return Stamped {
            number: refusals::WRONG_LENGTH,
            right: false,
        };
    }
    let right = refill(g, p, w, uuid, s, buf);
    Stamped { number: 0, right }
}

// The header sectors and tree roots of one group: blocks 0 up to the preallocated ones; every byte is written. It says whether the
// checksums of all sectors and roots stood there already. 31 for a geometry that is no answer of the geometry step, or a plan that is not
// the planner's for its group; 27 unless the lent bytes are the head's.
pub fn ag_head(
    g: Geometry,
    plan: AgPlan,
    uuid: &[u8; 16],
    state: SbState,
    buf: &mut [u8],
) -> Stamped
    ensures { Encoded (head_number g plan (length buf.old)) (head_places g) (head_bytes g plan uuid.now state)
        buf.old result.number result.right buf.new }
{
    let framed = frame_of(g, plan);
    let number = framed.number;
    if number != 0 {
        return Stamped {
            number,
            right: false,
        };
    }
    let w = framed.frame;
    refill_whole(g, plan, w, uuid, state, buf)
}

// The same for a group by its number, which is planned here: 31, 29 and 25 as the planner, then 27.
pub fn group_head(
    g: Geometry,
    agno: u64,
    uuid: &[u8; 16],
    state: SbState,
    buf: &mut [u8],
) -> Stamped
    ensures { Encoded (group_head_number g agno (length buf.old)) (head_places g)
        (head_bytes g (planned g agno).plan uuid.now state) buf.old result.number result.right buf.new }
{
    let framed = frame_at(g, agno);
    let number = framed.number;
    if number != 0 {
        return Stamped {
            number,
            right: false,
        };
    }
    let plan = framed.plan;
    let w = framed.frame;
    refill_whole(g, plan, w, uuid, state, buf)
}
