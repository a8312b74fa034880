// Held runs: start, hold and release, the latter two of a state handed in, spoilt or not. A state has 600 bytes: the group (8), the count
// of free records (8), 64 free records (start and length, 4 each), the count of held runs (8), 8 held runs (the same). The counts are
// handed on as they stand, also above 64 and 8.
use crate::plans::run_at;
use crate::rows::{Answer, put, put_each, run};
use crate::steps::step;
use geometry::Geometry;
use plan_free::FreeList;
use plan_holds::{Held, HeldList, Holds};
use replay_frames::{behind, long, records};

// The calls; any other number is a release.
const START: u64 = 0;

const HOLD: u64 = 1;

// The bytes of a call's parameters with a state behind them: call, place and length, 8 bytes each.
const PARAMS: usize = 624;

// 148 numbers.
const ANSWER: usize = 1184;

// A state: the records stand from the parameters' byte 40 on, and the runs from 560 on.
fn state_of(p: &[u8]) -> Holds {
    let free = FreeList {
        recs: records(behind(p, 40), 8, run_at),
        len: long(p, 32) as usize,
    };
    let held = HeldList {
        recs: records(behind(p, 560), 8, run_at),
        len: long(p, 552) as usize,
    };
    Holds {
        agno: long(p, 24),
        free,
        held,
    }
}

// The number, the group of the state left, how many free records and held runs it has, and these: each of their places.
fn put_answer(h: Held, row: &mut [u8; 16384]) -> Answer {
    let s = h.state;
    let free = s.free;
    let held = s.held;
    put(row, 0, &[u64::from(h.number), s.agno]);
    put(row, 2, &[free.len as u64, held.len as u64]);
    put_each(row, 4, 2, &free.recs, 64, run); // also what stands behind the last record
    put_each(row, 132, 2, &held.recs, 8, run);
    Answer {
        number: h.number,
        length: ANSWER,
    }
}

// A number, and zeros for the state.
fn refused(number: u32, row: &mut [u8; 16384]) -> Answer {
    put(row, 0, &[u64::from(number)]);
    Answer {
        number,
        length: ANSWER,
    }
}

fn call_on(g: Geometry, p: &[u8], row: &mut [u8; 16384]) -> Answer {
    let call = long(p, 0);
    let at = long(p, 8);
    let length = long(p, 16);
    if call == START {
        return put_answer(plan_holds::start(g, at), row);
    }
    if p.len() != PARAMS {
        return refused(refusals::WRONG_LENGTH, row);
    }
    let s = state_of(p);
    let left = match call {
        HOLD => plan_holds::hold(g, s, at, length),
        _ => plan_holds::release(g, s, at, length),
    };
    put_answer(left, row)
}

// The call on the geometry that the records ask for.
pub(crate) fn holds(p: &[u8], body: &[u8], row: &mut [u8; 16384]) -> Answer {
    match step(body) {
        Ok(g) => call_on(g, p, row),
        Err(number) => refused(number, row),
    }
}
