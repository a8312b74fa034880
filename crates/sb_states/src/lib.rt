// The states of the superblocks: each group's while the run writes, and group 0's at the end. The Rust's format of format.rs.
#![tactic(auto)]

ghost use Rattle.std.specs.Prelude.{◌≡◌, ◌+◌, ◌<◌, ◌^◌, leb};
ghost use Rattle.geometry_counts.specs.Known.{value_in};
ghost use Rattle.arith.specs.Choice.{when};
ghost use Rattle.plan_totals.specs.Totals.{plans_number, free_count};
ghost use Rattle.geometry_places.specs.Answers.{root_ino};
ghost use Rattle.sb_states.specs.States.{secondary_with, primary_with, names_root, secondary_state, state_refused, state_number, stated, finished_answer};

use geometry::Geometry;
use geometry_places::fixed::{initial_fdblocks, rootino};
use plan_summary::{free_count, plans_number};
use sb::SbState;
use structs::NULL64;

// The inodes of the root chunk that are in use: root directory, realtime bitmap, realtime summary.
const IN_USE: u64 = 3;

// The number is 0 for a state of the run; a refusal has zeros.
#[derive(Clone, Copy)]
pub struct Stated {
    pub number: u32,
    pub state: SbState,
}

fn value_of(v: Result<u64, u32>) -> u64
    ensures { result ≡ value_in v }
{
    match v {
        Ok(n) => n,
        Err(n) => 0,
    }
}

fn refused(n: u32) -> Stated
    ensures { result ≡ state_refused n }
{
    let uuid = [0u8; 16];
    let state = SbState {
        uuid,
        rootino: 0,
        rbmino: 0,
        rsumino: 0,
        icount: 0,
        ifree: 0,
        fdblocks: 0,
        inprogress: false,
    };
    Stated { number: n, state }
}

fn secondary_with(uuid: [u8; 16], rootino: u64, fdblocks: u64) -> SbState
    ensures { result ≡ secondary_with uuid rootino fdblocks }
{
    SbState {
        uuid,
        rootino,
        rbmino: NULL64,
        rsumino: NULL64,
        icount: 0,
        ifree: 0,
        fdblocks,
        inprogress: true,
    }
}

fn primary_with(uuid: [u8; 16], rootino: u64, fdblocks: u64, inprogress: bool) -> SbState
    requires { rootino + 2 < 2 ^ 64 }
    ensures { result ≡ primary_with uuid rootino fdblocks inprogress }
{
    SbState {
        uuid,
        rootino,
        rbmino: rootino + 1,
        rsumino: rootino + 2,
        icount: Geometry::INODES_PER_CHUNK,
        ifree: Geometry::INODES_PER_CHUNK - IN_USE,
        fdblocks,
        inprogress,
    }
}

// The last group's superblock names the root inode, and above 2 groups the middle one.
fn names_root(agcount: u64, agno: u64) -> bool
    requires { 0 < agcount }
    ensures { result ≡ names_root agcount agno }
{
    if agno == agcount - 1 {
        return true;
    }
    if 2 < agcount {
        return agno == (agcount - 1) / 2;
    }
    false
}

// A group that is there, of a geometry whose plans are accepted.
fn secondary(g: Geometry, uuid: [u8; 16], agno: u64) -> SbState
    requires { plans_number g ≡ 0 }
    ensures { result ≡ secondary_state g uuid agno }
{
    let free = value_of(initial_fdblocks(g));
    if names_root(g.agcount, agno) {
        return secondary_with(uuid, value_of(rootino(g)), free);
    }
    secondary_with(uuid, NULL64, free)
}

fn primary(g: Geometry, uuid: [u8; 16], inprogress: bool) -> SbState
    requires { plans_number g ≡ 0 }
    ensures { result ≡ primary_with uuid (root_ino g) (free_count g) inprogress }
{
    let root = value_of(rootino(g));
    let free = value_of(free_count(g));
    primary_with(uuid, root, free, inprogress)
}

// 31, 25, 29, or 0.
fn number_of(g: Geometry, agno: u64) -> u32
    ensures { result ≡ state_number g agno }
{
    let plans = plans_number(g);
    if plans != 0 {
        return plans;
    }
    if g.agcount <= agno {
        return refusals::NO_PLACE;
    }
    0
}

// The state that the head of group `agno` is written with: 31, 25 where a plan is refused, 29.
pub fn state_of(g: Geometry, uuid: [u8; 16], agno: u64) -> Stated
    ensures { result ≡ stated g uuid agno }
{
    let n = number_of(g, agno);
    if n != 0 {
        return refused(n);
    }
    if agno == 0 {
        let state = primary(g, uuid, true);
        return Stated { number: 0, state };
    }
    let state = secondary(g, uuid, agno);
    Stated { number: 0, state }
}

// The state of group 0's superblock at the end: 31, 25 where a plan is refused.
pub fn finished_state(g: Geometry, uuid: [u8; 16]) -> Stated
    ensures { result ≡ finished_answer g uuid }
{
    let n = plans_number(g);
    if n != 0 {
        return refused(n);
    }
    let state = primary(g, uuid, false);
    Stated { number: 0, state }
}
