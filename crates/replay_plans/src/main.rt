// Answers cases of geometry, plans, record lists, input records and held runs from standard input (replay_frames has the frames): the
// number, and a row of numbers. oracle/compare asks it through a pipe. `stdin` and `stdout` hold cases from seeds and what the Rust answers
// to them (24, 28 and others, which the Rust doesn't know, are the scope's, and held runs are the model's); they were written by
//
//     oracle/record plans
#![tactic(auto)]

use crate::holds::holds;
use crate::plans::{plans, rmap_insert, take};
use crate::requests::request;
use crate::rows::{Answer, refused};
use crate::steps::{geometry, helpers, places};
use replay_frames::Form;

pub mod holds; // held runs
pub mod plans; // the planner, and its two functions on lists
pub mod requests; // input records
pub mod rows; // rows of numbers
pub mod steps; // the geometry step, its methods and conversions

fn answer(function: u8, p: &[u8], body: &[u8], row: &mut [u8; 16384]) -> Answer {
    match function {
        0 => geometry(body, row),
        1 => places(p, body, row),
        2 => helpers(p, row),
        3 => plans(p, body, row),
        4 => take(p, body, row),
        5 => rmap_insert(p, body, row),
        6 => request(body, row),
        7 => holds(p, body, row),
        _ => refused(refusals::MALFORMED),
    }
}

// Writes the number and the part of the row that an answer has.
fn say(form: Form, a: Answer, row: &[u8]) -> bool {
    match row.get(..a.length) {
        Some(part) => replay_frames::say(form, a.number, 0, part),
        None => false,
    }
}

// Answers a case of these parameters and body.
fn reply(form: Form, function: u8, p: &[u8], body: &[u8]) -> bool {
    let mut row = [0u8; 16384];
    let a = answer(function, p, body, &mut row);
    say(form, a, &row)
}

// Answers the next case; false where there is none.
fn turn() -> bool {
    let mut params = [0u8; 4096];
    let mut body = [0u8; 8192];
    match replay_frames::next(&mut params, &mut body) {
        Some((case, body)) => reply(case.form, case.function, case.params, body),
        None => false,
    }
}

// A proved loop has to end, so its turns are as many as no input uses up.
fn main() {
    for _ in 0..u64::MAX {
        if !turn() {
            return;
        }
    }
}
