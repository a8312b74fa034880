// How many pieces the list of a run has, how long each is, and which number refuses one.
#![tactic(auto)]

ghost use Rattle.std.specs.Prelude.{◌≡◌};
ghost use Rattle.list_lengths.specs.Pieces.{listed_length, part_length, format_number, piece_number, write_number, count_answer, length_answer, part_answer};

pub mod parts; // parts.rt: how long the pieces and their parts are

use geometry::Geometry;
use inode_time::encode_time;
use parts::{length_of, part_of};
use plan_summary::plans_number;
use run::Run;

// A count of pieces or bytes; a refusal has 0 beside its number.
#[derive(Clone, Copy)]
pub struct Counted {
    pub number: u32,
    pub value: u64,
}

// Bytes of piece k.
fn listed_length(g: Geometry, k: u64) -> usize
    ensures { result ≡ listed_length g k }
{
    length_of(
        g.features,
        g.sectsize,
        g.inodesize,
        g.blocksize,
        g.agcount,
        k,
    )
}

// Bytes of the part that it is split from.
fn listed_part(g: Geometry, k: u64) -> usize
    ensures { result ≡ part_length g k }
{
    part_of(
        g.features,
        g.sectsize,
        g.inodesize,
        g.blocksize,
        g.agcount,
        k,
    )
}

// 31, 25, 26, or 0.
fn format_number(run: Run) -> u32
    ensures { result ≡ format_number run }
{
    let g = run.geometry;
    let plans = plans_number(g);
    if plans != 0 {
        return plans;
    }
    let f = g.features;
    let time = run.time;
    let stored = encode_time(time, f.bigtime);
    stored.number
}

// The same, 29, or 0.
fn place_number(run: Run, k: u64) -> u32
    ensures { result ≡ piece_number run k }
{
    let n = format_number(run);
    if n != 0 {
        return n;
    }
    let g = run.geometry;
    if k.saturating_sub(2) <= g.agcount {
        return 0;
    }
    refusals::NO_PLACE
}

// Whether piece k can be made in a buffer of `len` bytes with a work buffer of `work`: 31, 25, 26, 29, 27, or 0.
pub fn write_number(run: Run, k: u64, len: usize, work: usize) -> u32
    ensures { result ≡ write_number run k len work }
{
    let n = place_number(run, k);
    if n != 0 {
        return n;
    }
    let g = run.geometry;
    if len != listed_length(g, k) {
        return refusals::WRONG_LENGTH;
    }
    if listed_part(g, k) <= work {
        return 0;
    }
    refusals::WRONG_LENGTH
}

fn refused(number: u32) -> Counted
    ensures { result ≡ record { number = number; value = 0 } }
{
    Counted { number, value: 0 }
}

// How many pieces the list has: 31, 25, 26.
pub fn piece_count(run: Run) -> Counted
    ensures { result ≡ count_answer run }
{
    let n = format_number(run);
    if n != 0 {
        return refused(n);
    }
    let g = run.geometry;
    let value = g.agcount + 3;
    Counted { number: 0, value }
}

// How many bytes piece k has: 31, 25, 26, 29.
pub fn piece_length(run: Run, k: u64) -> Counted
    ensures { result ≡ length_answer run k }
{
    let n = place_number(run, k);
    if n != 0 {
        return refused(n);
    }
    let value = listed_length(run.geometry, k) as u64;
    Counted { number: 0, value }
}

// How long a work buffer piece k needs: 31, 25, 26, 29. No piece needs more than group_bytes::LARGEST_HEAD.
pub fn part_length(run: Run, k: u64) -> Counted
    ensures { result ≡ part_answer run k }
{
    let n = place_number(run, k);
    if n != 0 {
        return refused(n);
    }
    let value = listed_part(run.geometry, k) as u64;
    Counted { number: 0, value }
}
