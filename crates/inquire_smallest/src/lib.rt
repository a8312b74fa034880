// The smallest device size, among some in steps of 1 MiB, whose finished superblock has so many free blocks: a loop over the sizes.
#![tactic(auto)]

ghost use Rattle.std.specs.Prelude.{◌≡◌, ◌+◌, ◌*◌, ◌-◌, ◌≤◌, ◌<◌, ◌^◌};
ghost use Rattle.inquire_smallest.specs.Question.{default_groups, reaches, smallest_call_refused, found_in, no_sizes, smallest_answer, smallest_asked};

use geometry::Geometry;
use inquire_sizes::options_number;
use params::Params;
use request::defaults::uuid_or_zeros;
use sb_states::finished_state;

// Bytes between two sizes.
const STEP: u64 = 1 << 20;

// The most sizes that are tried.
const MOST_SIZES: u64 = 65536;

// The number is 0 beside the size in bytes; a refusal, by 28, 1 to 8, 39 or 38, has 0 bytes.
#[derive(Clone, Copy)]
pub struct Found {
    pub number: u32,
    pub size: u64,
}

// The options with agsize and agcount left to default.
fn default_groups(p: Params) -> Params
    ensures { result ≡ default_groups p }
{
    Params {
        agcount: None,
        agsize: None,
        ..p
    }
}

// Whether geometry and planning accept a device of so many bytes, and its finished superblock has at least so many free blocks.
#[tactic(auto, using(crate::proofs::Reaching::step_refused, crate::proofs::Reaching::step_accepted))]
fn is_enough(p: Params, logical: u32, physical: u32, wanted: u64, device: u64) -> bool
    ensures { result ≡ reaches p logical physical wanted device }
{
    let c = Geometry::compute(p, device, logical, physical);
    if c.number != 0 {
        return false;
    }
    let s = finished_state(c.geometry, uuid_or_zeros(p));
    s.number == 0 && wanted <= s.state.fdblocks
}

fn refused(n: u32) -> Found
    ensures { result ≡ smallest_call_refused n }
{
    Found { number: n, size: 0 }
}

// There is no size, there are too many, or the last doesn't fit 64 bits.
fn no_sizes(start: u64, count: u64) -> bool
    ensures { result ≡ no_sizes start count }
{
    if count == 0 || MOST_SIZES < count {
        return true;
    }
    u64::MAX - (count - 1) * STEP < start
}

// The first of the sizes that is enough, or 38.
fn scan(p: Params, logical: u32, physical: u32, start: u64, count: u64, wanted: u64) -> Found
    requires { (count ≤ 65536) × (start + (count - 1) * 2 ^ 20 < 2 ^ 64) }
    ensures { result ≡ found_in p logical physical start count wanted }
{
    for i in 0..count {
        let size = start + i * STEP;
        if is_enough(p, logical, physical, wanted, size) {
            return Found { number: 0, size };
        }
    }
    refused(refusals::NONE_REACHES)
}

// The smallest of `count` device sizes from `start` on, in steps of 1 MiB, that leaves so many free blocks with these options and sectors.
// Given agsize and agcount are as if absent; time and profile aren't looked at.
pub fn smallest(
    p: Params,
    logical: u32,
    physical: u32,
    start: u64,
    count: u64,
    wanted: u64,
) -> Found
    ensures { result ≡ smallest_answer p logical physical start count wanted }
{
    let q = default_groups(p);
    let early = options_number(q, logical, physical);
    if early != 0 {
        return refused(early);
    }
    if no_sizes(start, count) {
        return refused(refusals::BAD_SIZES);
    }
    scan(q, logical, physical, start, count, wanted)
}

// The same for what input records ask for; their device's size isn't read.
pub fn smallest_of(input: &[u8], start: u64, count: u64, wanted: u64) -> Found
    ensures { result ≡ smallest_asked input.now start count wanted }
{
    let q = request::parse(input);
    if q.number != 0 {
        return refused(q.number);
    }
    smallest(q.params, q.logical, q.physical, start, count, wanted)
}
