// What the parts of a group's head have in common, in plain numbers, once the plan is known to be the planner's.
#![tactic(auto)]

ghost use Rattle.std.specs.Prelude.{◌≡◌, true, ◌*◌, ◌<◌, ◌^◌};
ghost use Rattle.plan_same.specs.Same.{is_plan};
ghost use Rattle.plan_totals.specs.Totals.{freeblks_of, longest_of};
ghost use Rattle.head_frame.specs.Frames.{has_chunk, chunk_ino, frame_of, no_frame, framed, framed_at};

use geometry::Geometry;
use geometry::log_size::header_of;
use params::Features;
use plan::AgPlan;
use plan_summary::records::{free_totals, group_totals};

// A group, its head and its root chunk.
#[derive(Clone, Copy)]
pub struct Frame {
    pub agno: u32,
    pub length: u32, // blocks of the group
    pub header: u32, // blocks of the four header sectors
    pub sector: u32, // bytes
    pub block: u32, // bytes
    pub agsize: u64, // blocks of a whole group
    pub has_chunk: bool,
    pub newino: u32, // the chunk's first inode within the group, or NULL32
    pub freeblks: u32, // blocks of the free records
    pub longest: u32, // blocks of the longest
    pub list: u32, // blocks on the free list
    pub features: Features,
}

// The number is 0 for a plan of the planner; a refusal has the frame of zeros.
#[derive(Clone, Copy)]
pub struct Framed {
    pub number: u32,
    pub frame: Frame,
}

// A group's plan with its frame. The number is 0 for an accepted plan; a refusal has the plan and the frame of zeros.
#[derive(Clone, Copy)]
pub struct FramedPlan {
    pub number: u32,
    pub plan: AgPlan,
    pub frame: Frame,
}

fn has_chunk(chunk: Option<u64>) -> bool
    ensures { result ≡ has_chunk chunk }
{
    match chunk {
        None => false,
        Some(_) => true,
    }
}

// A block's first inode within the group.
fn first_ino(block: u64, log: u8) -> u32
    requires { (log < 64) × (block * 2 ^ log < 2 ^ 32) }
    ensures { result ≡ block * 2 ^ log }
{
    (block << log) as u32
}

// The first inode of the chunk within its group.
fn chunk_ino(chunk: Option<u64>, log: u8) -> u32
    requires { (log < 64) × (chunk_ino log chunk < 2 ^ 32) }
    ensures { result ≡ chunk_ino log chunk }
{
    match chunk {
        None => structs::NULL32,
        Some(c) => first_ino(c, log),
    }
}

fn no_frame() -> Framed
    ensures { result ≡ record { number = 31; frame = no_frame } }
{
    let features = Features {
        finobt: false,
        rmapbt: false,
        reflink: false,
        inobtcount: false,
        bigtime: false,
        nrext64: false,
        sparse: false,
    };
    let frame = Frame {
        agno: 0,
        length: 0,
        header: 0,
        sector: 0,
        block: 0,
        agsize: 0,
        has_chunk: false,
        newino: 0,
        freeblks: 0,
        longest: 0,
        list: 0,
        features,
    };
    Framed {
        number: refusals::NO_ANSWER,
        frame,
    }
}

fn frame_with(g: Geometry, p: AgPlan, freeblks: u32, longest: u32) -> Frame
    requires { (is_plan g p ≡ true) × (freeblks ≡ freeblks_of p.free) × (longest ≡ longest_of p.free) }
    ensures { result ≡ frame_of g p }
{
    let features = g.features;
    let header = header_of(g.sectsize, g.blocksize as u64);
    let chunk = p.chunk;
    let there = has_chunk(chunk);
    let newino = chunk_ino(chunk, g.inopblog);
    Frame {
        agno: p.agno as u32,
        length: p.length as u32,
        header: header as u32,
        sector: g.sectsize,
        block: g.blocksize,
        agsize: g.agsize,
        has_chunk: there,
        newino,
        freeblks,
        longest,
        list: p.agfl.len as u32,
        features,
    }
}

// 31 unless the plan is the planner's for its group, else what its head's parts have in common.
pub fn frame_of(g: Geometry, p: AgPlan) -> Framed
    ensures { result ≡ framed g p }
{
    let t = free_totals(g, p);
    if t.number != 0 {
        return no_frame();
    }
    let frame = frame_with(g, p, t.blocks, t.longest);
    Framed { number: 0, frame }
}

// The plan of group agno, made once, and what its head's parts have in common: 31, 29 and 25 as the planner.
pub fn frame_at(g: Geometry, agno: u64) -> FramedPlan
    ensures { result ≡ framed_at g agno }
{
    let t = group_totals(g, agno);
    let number = t.number;
    let plan = t.plan;
    if number != 0 {
        let none = no_frame();
        let frame = none.frame;
        return FramedPlan {
            number,
            plan,
            frame,
        };
    }
    let frame = frame_with(g, plan, t.blocks, t.longest);
    FramedPlan {
        number: 0,
        plan,
        frame,
    }
}
