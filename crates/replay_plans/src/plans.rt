// The planner, and the two functions on lists of records.
ghost use Rattle.std.specs.Prelude.{◌≤◌};

use crate::rows::{Answer, mapping, put, put_each, refused, run};
use crate::steps::step;
use btree::{AllocRec, RmapRec};
use geometry::Geometry;
use plan::{AgPlan, Agfl, plan_ag};
use plan_free::FreeList;
use plan_rmap::RmapList;
use plan_summary::records::free_totals;
use replay_frames::{long, records, word};

// Four plans of 394 numbers each, behind the groups and the log's group.
const PLANS: usize = 12624;

// The count of records left, and 64 records of 16 or 24 bytes.
const FREE: usize = 1032;

const RMAP: usize = 1544;

// Whether there is a chunk, and where.
fn chunk_of(chunk: Option<u64>) -> [u64; 2] {
    match chunk {
        Some(block) => [1, block],
        None => [0, 0],
    }
}

// The lists, in 64 places each.
fn put_lists(row: &mut [u8; 16384], at: usize, free: FreeList, agfl: Agfl, rmap: RmapList)
    requires { at ≤ 1184 }
{
    put_each(row, at + 10, 2, &free.recs, free.len, run);
    put_each(
        row,
        at + 138,
        1,
        &agfl.blocks,
        agfl.len,
        |block| [u64::from(*block), 0, 0],
    );
    put_each(row, at + 202, 3, &rmap.recs, rmap.len, mapping);
}

// agno and length, the counts of the lists, whether there is a chunk and where, freeblks, longest, and the lists.
fn put_plan(row: &mut [u8; 16384], at: usize, g: Geometry, plan: AgPlan)
    requires { at ≤ 1184 }
{
    let free = plan.free;
    let agfl = plan.agfl;
    let rmap = plan.rmap;
    let counts = [free.len as u64, agfl.len as u64, rmap.len as u64];
    let t = free_totals(g, plan);
    put(row, at + 1, &[plan.agno, plan.length]);
    put(row, at + 3, &counts);
    put(row, at + 6, &chunk_of(plan.chunk));
    put(row, at + 8, &[u64::from(t.blocks), u64::from(t.longest)]);
    put_lists(row, at, free, agfl, rmap);
}

// The number of the plan of group agno, and where it is 0 the plan.
fn planned(row: &mut [u8; 16384], at: usize, g: Geometry, agno: u64)
    requires { at ≤ 1184 }
{
    let p = plan_ag(g, agno);
    put(row, at, &[u64::from(p.number)]);
    if p.number == 0 {
        put_plan(row, at, g, p.plan);
    }
}

// The groups and the log's group, then the plans of group 0, the log's group, the last and the one that a number (8 bytes) chooses.
pub(crate) fn plans(p: &[u8], body: &[u8], row: &mut [u8; 16384]) -> Answer {
    let g = match step(body) {
        Ok(g) if g.agcount == 0 => return refused(0),
        Ok(g) => g,
        Err(number) => return refused(number),
    };
    put(row, 0, &[g.agcount, g.logagno]);
    planned(row, 2, g, 0);
    planned(row, 396, g, g.logagno);
    planned(row, 790, g, g.agcount - 1);
    planned(row, 1184, g, long(p, 0) % g.agcount);
    Answer {
        number: 0,
        length: PLANS,
    }
}

// The free record at the start: start and length in 8 bytes.
pub(crate) fn run_at(p: &[u8]) -> AllocRec {
    AllocRec {
        start: word(p, 0),
        count: word(p, 4),
    }
}

// `take` of a start and a length (8 bytes each). The records in the body, 8 bytes each, are handed on whatever their number.
pub(crate) fn take(p: &[u8], body: &[u8], row: &mut [u8; 16384]) -> Answer {
    let list = FreeList {
        recs: records(body, 8, run_at),
        len: body.len() / 8,
    };
    let t = plan_free::take(list, long(p, 0), long(p, 8));
    let left = t.list;
    put(row, 0, &[left.len as u64]);
    put_each(row, 1, 2, &left.recs, left.len, run);
    Answer {
        number: t.number,
        length: FREE,
    }
}

// The reverse mapping at the start: start, length and owner in 16 bytes.
fn mapping_at(p: &[u8]) -> RmapRec {
    RmapRec {
        start: word(p, 0),
        count: word(p, 4),
        owner: long(p, 8),
    }
}

// `rmap_insert` of a record (16 bytes), into those of the body.
pub(crate) fn rmap_insert(p: &[u8], body: &[u8], row: &mut [u8; 16384]) -> Answer {
    let list = RmapList {
        recs: records(body, 16, mapping_at),
        len: body.len() / 16,
    };
    let t = plan_rmap::rmap_insert(list, mapping_at(p));
    let left = t.list;
    put(row, 0, &[left.len as u64]);
    put_each(row, 1, 3, &left.recs, left.len, mapping);
    Answer {
        number: t.number,
        length: RMAP,
    }
}
