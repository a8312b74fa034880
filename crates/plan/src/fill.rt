// The free list: the smallest free record that holds all still wanted, else the largest, from its start, until the list is full.
ghost use Rattle.std.specs.Prelude.{◌≡◌, [], ◌+◌, ◌-◌, ◌≤◌, ◌^◌};
ghost use Rattle.seqs.specs.Lists.{pushed, appended, turns, up_from};
ghost use Rattle.plan.specs.Plan.{of_agfl, to_agfl, pack_agfl, failed, mapped, noted, moved, list_turn};

use crate::{Agfl, Work};
use btree::owner;
use btree::records::RmapRec;
use plan_free::FreeList;
use plan_rmap::{Inserted, RmapList};

pub(crate) fn no_blocks() -> Agfl
    ensures { result ≡ pack_agfl [] }
{
    let blocks = [0u32; 64];
    Agfl { blocks, len: 0 }
}

// One block more; a full list stays as it is.
fn push_block(l: Agfl, b: u32) -> Agfl
    ensures { result ≡ to_agfl (pushed (of_agfl l) b) }
{
    let mut out = l;
    if l.len < 64 {
        out.blocks[l.len] = b;
        out.len += 1;
    }
    out
}

// n blocks more, from start on.
fn extend(l: Agfl, start: u32, n: u64) -> Agfl
    requires { start + n ≤ 2 ^ 32 }
    ensures { result ≡ to_agfl (appended (of_agfl l) (up_from start n)) }
{
    let first = start as u64;
    let mut out = l;
    for b in first..first + n {
        out = push_block(out, b as u32);
    }
    out
}

// Work that ends with a refusal.
pub(crate) fn fail(w: Work, n: u32) -> Work
    ensures { result ≡ failed w n }
{
    let mut out = w;
    out.number = n;
    out
}

// The owner noted where reverse mappings are kept.
pub(crate) fn note_owner(on: bool, l: RmapList, r: RmapRec) -> Inserted
    ensures { result ≡ mapped on l r }
{
    if on {
        return plan_rmap::rmap_insert(l, r);
    }
    Inserted { number: 0, list: l }
}

// The work with what is left, or the refusal of the reverse mapping.
pub(crate) fn finish(w: Work, want: u32, free: FreeList, agfl: Agfl, m: Inserted) -> Work
    ensures { result ≡ noted w want free agfl m }
{
    let number = m.number;
    if number == 0 {
        let rmap = m.list;
        return Work {
            number: 0,
            want,
            rmapbt: w.rmapbt,
            free,
            agfl,
            rmap,
        };
    }
    fail(w, number)
}

// n blocks from start go to the free list.
fn move_blocks(w: Work, start: u32, n: u32) -> Work
    requires { n ≤ w.want }
    ensures { result ≡ moved w start n }
{
    let free = w.free;
    let t = plan_free::take(free, start as u64, n as u64);
    let number = t.number;
    if number == 0 {
        let list = t.list;
        let old = w.agfl;
        let agfl = extend(old, start, n as u64);
        let rm = w.rmap;
        let r = RmapRec {
            start,
            count: n,
            owner: owner::AG,
        };
        let m = note_owner(w.rmapbt, rm, r);
        return finish(w, w.want - n, list, agfl, m);
    }
    fail(w, number)
}

// One turn: 25 where no record is left.
fn one_turn(w: Work) -> Work
    ensures { result ≡ list_turn w }
{
    if w.number != 0 || w.want == 0 {
        return w;
    }
    let c = plan_free::pick(w.free, w.want as u64);
    if !c.found {
        return fail(w, refusals::FREE_LIST_SHORT);
    }
    move_blocks(w, c.rec.start, w.want.min(c.rec.count))
}

// At most `need` turns.
pub(crate) fn fill_list(w: Work, need: u32) -> Work
    ensures { result ≡ turns list_turn need w }
{
    (0..need).fold(w, |w, _| one_turn(w))
}
