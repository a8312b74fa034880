// What `inquire holds` answers: the state that its calls start from, and each call in turn.
#![tactic(auto)]

pub mod words; // the words of the calls

ghost use Rattle.std.specs.Prelude.{◌≡◌};
ghost use Rattle.run.specs.Runs.{or_next};
ghost use Rattle.inquire_holds.specs.Calls.{holds_opened, call_answer, call_stepped};

use geometry::Geometry;
use plan_holds::{Held, Holds};

// What the word of a call says; `number` is 0, or says what is wrong with it beside zeros.
#[derive(Clone, Copy)]
pub struct Call {
    pub number: u8,
    pub release: bool, // else it holds
    pub at: u64, // the run's first block
    pub length: u64, // blocks
}

// The geometry and the group's first state; `number` is 0, or the first that refuses the records, the geometry step, the group or its plan.
#[derive(Clone, Copy)]
pub struct Opened {
    pub number: u32,
    pub geometry: Geometry,
    pub state: Holds,
}

// The first of two numbers that isn't 0.
fn or_next(a: u32, b: u32) -> u32
    ensures { result ≡ or_next a b }
{
    if a == 0 { b } else { a }
}

// The group that the calls are about, of the disk that input records ask for: 28, 1 to 24, 29, 25. Time and the other groups' plans aren't
// looked at.
pub fn open(input: &[u8], agno: u64) -> Opened
    ensures { result ≡ holds_opened input.now agno }
{
    let q = request::parse(input);
    let c = Geometry::compute(q.params, q.device, q.logical, q.physical);
    let h = plan_holds::start(c.geometry, agno);
    let later = or_next(c.number, h.number);
    Opened {
        number: or_next(q.number, later),
        geometry: c.geometry,
        state: h.state,
    }
}

fn answer(g: Geometry, s: Holds, c: Call) -> Held
    ensures { result ≡ call_answer g s c }
{
    if c.release {
        plan_holds::release(g, s, c.at, c.length)
    } else {
        plan_holds::hold(g, s, c.at, c.length)
    }
}

// A call made: its number, and the state for the next one. A refused call leaves the state as it was.
pub fn step(g: Geometry, s: Holds, c: Call) -> Held
    ensures { result ≡ call_stepped g s c }
{
    let t = answer(g, s, c);
    if t.number == 0 {
        t
    } else {
        Held { state: s, ..t }
    }
}
