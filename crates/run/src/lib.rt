// A run: what the input records ask for, accepted where its geometry, all its plans and its time are, and under the profile its rules hold.
#![tactic(auto)]

ghost use Rattle.std.specs.Prelude.{◌≡◌};
ghost use Rattle.plan_totals.specs.Totals.{plans_number};
ghost use Rattle.run.specs.Runs.{or_next, time_refusal, no_run, run_of, accepted};

use geometry::Geometry;
use inode_time::encode_time;
use params::Timestamp;
use plan_summary::plans_number;
use profile::profile_number;
use request::defaults::{seed_or_zero, time_or_zero, uuid_or_zeros};
use request::{Request, parse};

// The number is 0 for an accepted run; a refusal has zeros.
#[derive(Clone, Copy)]
pub struct Run {
    pub number: u32,
    pub geometry: Geometry,
    pub uuid: [u8; 16],
    pub time: Timestamp,
    pub seed: u64, // of the inode generations
}

// 26 where the geometry's inodes can't store the time.
fn time_refusal(g: Geometry, t: Timestamp) -> u32
    ensures { result ≡ time_refusal g t }
{
    let f = g.features;
    let stored = encode_time(t, f.bigtime);
    stored.number
}

// The first of two numbers that isn't 0.
fn or_next(a: u32, b: u32) -> u32
    ensures { result ≡ or_next a b }
{
    if a != 0 {
        return a;
    }
    b
}

// The first number that refuses, of the records, the geometry step, the plans and the time.
fn number_of(records: u32, step: u32, g: Geometry, t: Timestamp) -> u32
    ensures { result ≡ or_next records (or_next step (or_next (plans_number g) (time_refusal g t))) }
{
    if records != 0 {
        return records;
    }
    if step != 0 {
        return step;
    }
    let plans = plans_number(g);
    if plans != 0 {
        return plans;
    }
    time_refusal(g, t)
}

fn refused(n: u32) -> Run
    ensures { result ≡ no_run n }
{
    let geometry = Geometry::zero();
    let uuid = [0u8; 16];
    let time = Timestamp { secs: 0, nsecs: 0 };
    Run {
        number: n,
        geometry,
        uuid,
        time,
        seed: 0,
    }
}

// The run of a request.
pub fn run_of(r: Request) -> Run
    ensures { result ≡ run_of r }
{
    let p = r.params;
    let c = Geometry::compute(p, r.device, r.logical, r.physical);
    let geometry = c.geometry;
    let time = time_or_zero(p);
    let bare = number_of(r.number, c.number, geometry, time);
    let label = p.label;
    let n = or_next(bare, profile_number(r.profile, geometry, label));
    if n != 0 {
        return refused(n);
    }
    let uuid = uuid_or_zeros(p);
    let seed = seed_or_zero(p);
    Run {
        number: 0,
        geometry,
        uuid,
        time,
        seed,
    }
}

// The run that input records ask for: 28, 1 to 26, 37, or 0.
pub fn accept(input: &[u8]) -> Run
    ensures { result ≡ accepted input.now }
{
    run_of(parse(input))
}
