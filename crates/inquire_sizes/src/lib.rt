// Whether every device size of a range is formatted: a loop over its sizes in whole blocks.
#![tactic(auto)]

ghost use Rattle.std.specs.Prelude.{◌≡◌, ◌≤◌, ◌<◌, ◌^◌};
ghost use Rattle.inquire_sizes.specs.Ranges.{sizes_call_refused, options_number, no_range, range_of, sizes_answer, sizes_asked};
ghost use Rattle.inquire_sizes.specs.Step.{number_at};

pub mod step; // step.rt: the number of one size

use arith::numbers::quotient;
use geometry::sizes::{chosen_sizes, sizes_refusal};
use params::Params;
use refusals::first;
use step::{Fixed, fixed_of, number_at, or_next};

// The most blocks between the ends of a range.
const MOST_APART: u64 = 65536;

// What is said of a range. The number is 0, or that of the question's refusal: 28, 1 to 8, 36. The refusal is 0 where every size is
// formatted; else it is that of the smallest refused size, which has so many blocks.
#[derive(Clone, Copy)]
pub struct Range {
    pub number: u32,
    pub blocks: u64,
    pub refusal: u32,
}

// The refusals that the device's size has no part in: 1 to 8, or 0.
pub fn options_number(p: Params, logical: u32, physical: u32) -> u32
    ensures { result ≡ options_number p logical physical }
{
    let f = p.features;
    let s = chosen_sizes(p, logical, physical);
    let n = sizes_refusal(s.block, s.sector, s.inode, s.logical, 0);
    first(f.inobtcount && !f.finobt, refusals::INOBTCOUNT_ALONE, n)
}

fn refused(n: u32) -> Range
    ensures { result ≡ sizes_call_refused n }
{
    Range {
        number: n,
        blocks: 0,
        refusal: 0,
    }
}

// The ends are the wrong way round, or too far apart.
fn no_range(from: u64, to: u64) -> bool
    ensures { result ≡ no_range from to }
{
    to < from || MOST_APART < to - from
}

// Every size from one block count to another, both included.
fn scan(f: Fixed, from: u64, to: u64) -> Range
    requires { (from ≤ to) × (to < 2 ^ 63) }
    ensures { result ≡ range_of (number_at f) from to }
{
    for n in from..=to {
        let m = number_at(f, n);
        if m != 0 {
            return Range {
                number: 0,
                blocks: n,
                refusal: m,
            };
        }
    }
    Range {
        number: 0,
        blocks: 0,
        refusal: 0,
    }
}

// Whether every device size from the smallest to the largest is formatted with these options and sectors. Time and profile aren't looked
// at.
pub fn sizes(p: Params, logical: u32, physical: u32, smallest: u64, largest: u64) -> Range
    ensures { result ≡ sizes_answer p logical physical smallest largest }
{
    let early = options_number(p, logical, physical);
    let s = chosen_sizes(p, logical, physical);
    let bs = s.block as u64;
    let from = quotient(smallest, bs);
    let to = quotient(largest, bs);
    let n = or_next(early, first(no_range(from, to), refusals::BAD_RANGE, 0));
    if n != 0 {
        return refused(n);
    }
    let f = fixed_of(p, logical, physical);
    scan(f, from, to)
}

// The same for what input records ask for; their device's size isn't read.
pub fn sizes_of(input: &[u8], smallest: u64, largest: u64) -> Range
    ensures { result ≡ sizes_asked input.now smallest largest }
{
    let q = request::parse(input);
    if q.number != 0 {
        return refused(q.number);
    }
    sizes(q.params, q.logical, q.physical, smallest, largest)
}
