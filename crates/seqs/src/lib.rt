// Lists, arrays of 64 with a count, and runs of blocks: definitions and laws for the crates above, and the test of a run.
#![tactic(auto)]

ghost use Rattle.std.specs.Prelude.{◌≡◌, ◌+◌};
ghost use Rattle.seqs.specs.Runs.{follows};

// No run ends above 2^32 − 1.
const ENDS_BELOW: u64 = 0x1_0000_0000;

// The first block past a run.
pub fn end_of(start: u32, count: u32) -> u64
    ensures { result ≡ start + count }
{
    (start as u64) + (count as u64)
}

// A run that may follow what ends at `lo`: not before it, not empty, its end at most 2^32 − 1.
pub fn may_follow(lo: u64, start: u32, count: u32) -> bool
    ensures { result ≡ follows lo start count }
{
    if lo <= (start as u64) {
        if 0 < count {
            return end_of(start, count) < ENDS_BELOW;
        }
        return false;
    }
    false
}
