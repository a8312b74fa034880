// The plan of an allocation group: what mkfs.xfs leaves of its blocks.
// The types stand here; the functions stand in the modules, in the order in which a plan is made.
#![tactic(auto)]

ghost use Rattle.std.specs.Prelude.{◌≡◌};
ghost use Rattle.plan_site.specs.Sites.{SoundSite};
ghost use Rattle.plan.specs.Plan.{refused_plan, plan_answer, plan_of, planned};

pub mod first; // first.rt: the records before anything is taken
pub mod fill; // fill.rt: the free list
pub mod chunk; // chunk.rt: the root chunk

use crate::chunk::take_chunk;
use crate::fill::{fill_list, no_blocks};
use crate::first::start_work;
use geometry::Geometry;
use plan_free::FreeList;
use plan_rmap::RmapList;
use plan_site::{Site, site_of};

// Blocks on the free list, in its order: the first `len` of `blocks`.
#[derive(Clone, Copy, PartialEq, Eq)]
pub struct Agfl {
    pub blocks: [u32; 64],
    pub len: usize,
}

// A plan in the making: the number is 0 until a step refuses; `want` blocks are still missing on the free list.
#[derive(Clone, Copy)]
pub struct Work {
    pub number: u32,
    pub want: u32,
    pub rmapbt: bool,
    pub free: FreeList,
    pub agfl: Agfl,
    pub rmap: RmapList,
}

// The end state of one allocation group's metadata: free extents by block, free list, reverse mappings by block, and the root inode
// chunk's first block in group 0.
#[derive(Clone, Copy, PartialEq, Eq)]
pub struct AgPlan {
    pub agno: u64,
    pub length: u64,
    pub free: FreeList,
    pub agfl: Agfl,
    pub rmap: RmapList,
    pub chunk: Option<u64>,
}

// The number is 0 for an accepted plan; a refusal has the plan of zeros.
#[derive(Clone, Copy)]
pub struct Planned {
    pub number: u32,
    pub plan: AgPlan,
}

fn refuse(n: u32) -> Planned
    ensures { result ≡ refused_plan n }
{
    let free = plan_free::empty();
    let agfl = no_blocks();
    let rmap = plan_rmap::empty();
    let chunk = None;
    let plan = AgPlan {
        agno: 0,
        length: 0,
        free,
        agfl,
        rmap,
        chunk,
    };
    Planned { number: n, plan }
}

fn answer_with(s: Site, chunk: Option<u64>, w: Work) -> Planned
    ensures { result ≡ plan_answer s chunk w }
{
    let number = w.number;
    if number == 0 {
        let free = w.free;
        let agfl = w.agfl;
        let rmap = w.rmap;
        let plan = AgPlan {
            agno: s.agno,
            length: s.length as u64,
            free,
            agfl,
            rmap,
            chunk,
        };
        return Planned { number: 0, plan };
    }
    refuse(number)
}

// The plan of the group at this site.
fn plan_site(s: Site) -> Planned
    requires { SoundSite s }
    ensures { result ≡ plan_of s }
{
    let first = start_work(s);
    let full = fill_list(first, s.need);
    if s.agno == 0 {
        let done = take_chunk(s, full);
        let chunk = Some(s.chunk_at as u64);
        return answer_with(s, chunk, done);
    }
    let chunk = None;
    answer_with(s, chunk, full)
}

// The plan of group agno: 31, 29, and 25 where the log group has fewer free blocks than its free list.
pub fn plan_ag(g: Geometry, agno: u64) -> Planned
    ensures { result ≡ planned g agno }
{
    let at = site_of(g, agno);
    let number = at.number;
    if number != 0 {
        return refuse(number);
    }
    let s = at.site;
    plan_site(s)
}
