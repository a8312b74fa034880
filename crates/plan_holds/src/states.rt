// States: the first of a group, one with a run more, and those that calls leave.
ghost use Rattle.std.specs.Prelude.{◌≡◌, ◌≤◌};
ghost use Rattle.plan_holds.specs.Holding.{held_of, hold_refused, started, held_with, held_next, replayed, same_state, is_state};

use crate::runs::{no_runs, put_run};
use crate::{Held, HeldList, Holds};
use btree::AllocRec;
use geometry::Geometry;
use plan::plan_ag;

// A number beside a state of zeros.
pub(crate) fn refused(number: u32) -> Held
    ensures { result ≡ hold_refused number }
{
    let free = plan_free::empty();
    let held = no_runs();
    let state = Holds {
        agno: 0,
        free,
        held,
    };
    Held { number, state }
}

// The plan's free records, and nothing held.
pub(crate) fn begin(g: Geometry, agno: u64) -> Held
    ensures { result ≡ started g agno }
{
    let p = plan_ag(g, agno);
    let number = p.number;
    if number == 0 {
        let plan = p.plan;
        let free = plan.free;
        let held = no_runs();
        let state = Holds { agno, free, held };
        return Held { number: 0, state };
    }
    refused(number)
}

// A run held, in a state that isn't tested: 42, then 34.
pub(crate) fn hold_in(s: Holds, at: u64, length: u64) -> Held
    ensures { result ≡ held_with s at length }
{
    if length == 0 {
        return refused(refusals::NOT_HOLDABLE);
    }
    let free = s.free;
    let t = plan_free::take(free, at, length);
    if t.number != 0 {
        return refused(refusals::NOT_HOLDABLE);
    }
    let old = s.held;
    if old.len >= 8 {
        return refused(refusals::TOO_MANY_RECORDS);
    }
    let r = AllocRec {
        start: at as u32,
        count: length as u32,
    };
    let list = t.list;
    let held = put_run(old, r);
    let state = Holds {
        agno: s.agno,
        free: list,
        held,
    };
    Held { number: 0, state }
}

// The next run held; a refusal stays.
fn hold_next(t: Held, r: AllocRec) -> Held
    ensures { result ≡ held_next t r }
{
    if t.number == 0 {
        let s = t.state;
        return hold_in(s, r.start as u64, r.count as u64);
    }
    t
}

// All runs of a list held, one after the other, from the group's first state.
pub(crate) fn replay(g: Geometry, agno: u64, h: HeldList) -> Held
    requires { h.len ≤ 8 }
    ensures { result ≡ replayed g agno (held_of h) }
{
    h.recs[..h.len]
        .iter()
        .fold(begin(g, agno), |t, r| hold_next(t, *r))
}

// All fields of two states are the same.
fn same_state(a: Holds, b: Holds) -> bool
    ensures { result ≡ same_state a b }
{
    a == b
}

// Some calls leave the state: holding its runs again gives it.
pub(crate) fn is_state(g: Geometry, s: Holds) -> bool
    ensures { result ≡ is_state g s }
{
    let held = s.held;
    if held.len > 8 {
        return false;
    }
    let t = replay(g, s.agno, held);
    t.number == 0 && same_state(t.state, s)
}
