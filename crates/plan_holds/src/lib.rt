// Runs of weak blocks of a group: held back from its free records, and given back. The types and the three calls stand here.
#![tactic(auto)]

ghost use Rattle.std.specs.Prelude.{◌≡◌};
ghost use Rattle.plan_holds.specs.Holding.{started, hold_def, release_def};

pub mod runs; // runs.rt: the held runs, sorted by start
pub mod states; // states.rt: one run held, all runs held again, and the test of a state handed in

use crate::runs::{drop_run, is_held};
use crate::states::{begin, hold_in, is_state, refused, replay};
use btree::AllocRec;
use geometry::Geometry;
use plan_free::FreeList;

// The runs held, sorted by start: the first `len` of `recs`.
#[derive(Clone, Copy, PartialEq, Eq)]
pub struct HeldList {
    pub recs: [AllocRec; 8],
    pub len: usize,
}

// A group, its free records, and the runs held.
#[derive(Clone, Copy, PartialEq, Eq)]
pub struct Holds {
    pub agno: u64,
    pub free: FreeList,
    pub held: HeldList,
}

// `number` is 0, and `state` what the call leaves; or the number of the refusal, and a state of zeros.
#[derive(Clone, Copy)]
pub struct Held {
    pub number: u32,
    pub state: Holds,
}

// The plan's free records, and nothing held: 31, 29 and 25 as in `plan_ag`.
pub fn start(g: Geometry, agno: u64) -> Held
    ensures { result ≡ started g agno }
{
    begin(g, agno)
}

// The run of `length` blocks from `at` held: 31; 42 for a run that is empty or not wholly free; 34 where eight are held.
pub fn hold(g: Geometry, s: Holds, at: u64, length: u64) -> Held
    ensures { result ≡ hold_def g s at length }
{
    if is_state(g, s) {
        return hold_in(s, at, length);
    }
    refused(refusals::NO_ANSWER)
}

// The run of `length` blocks from `at` given back: 31; 43 where no run of this start and length is held.
pub fn release(g: Geometry, s: Holds, at: u64, length: u64) -> Held
    ensures { result ≡ release_def g s at length }
{
    if is_state(g, s) {
        let held = s.held;
        if is_held(held, at, length) {
            let left = drop_run(held, at);
            return replay(g, s.agno, left);
        }
        return refused(refusals::NOT_HELD);
    }
    refused(refusals::NO_ANSWER)
}
