// A group's row from the summary of all groups, in constant time; blocks of a group in 32 bits.
ghost use Rattle.std.specs.Prelude.{◌≡◌};
ghost use Rattle.plan_totals.specs.Totals.{no_row};
ghost use Rattle.plan_summary.specs.Summaries.{length_in, log_blocks_in, chunk_blocks_in, free_blocks_in, longest_in, row_by_summary};

use arith::choice::pick;
use arith::numbers::max_u32;
use plan_summary::Summary;
use table_lines::Row;

fn length_in(s: Summary, k: u64) -> u32
    ensures { result ≡ length_in s k }
{
    pick(k == s.agcount.saturating_sub(1), s.last, s.agsize)
}

fn log_in(s: Summary, k: u64) -> u32
    ensures { result ≡ log_blocks_in s k }
{
    pick(k == s.logagno, s.logblocks, 0)
}

fn chunk_in(s: Summary, k: u64) -> u32
    ensures { result ≡ chunk_blocks_in s k }
{
    pick(k == 0, s.chunk, 0)
}

fn free_in(s: Summary, k: u64) -> u32
    ensures { result ≡ free_blocks_in s k }
{
    let after = length_in(s, k)
        .saturating_sub(s.head)
        .saturating_sub(log_in(s, k));
    after.saturating_sub(s.list).saturating_sub(chunk_in(s, k))
}

// Before or after the chunk in group 0.
fn longest_in(s: Summary, k: u64) -> u32
    ensures { result ≡ longest_in s k }
{
    let before = s.chunk_at.saturating_sub(s.head).saturating_sub(s.list);
    let after = length_in(s, k)
        .saturating_sub(s.chunk_at)
        .saturating_sub(s.chunk);
    pick(k == 0, max_u32(before, after), free_in(s, k))
}

pub(crate) fn no_row(n: u32) -> Row
    ensures { result ≡ no_row n }
{
    Row {
        number: n,
        group: 0,
        length: 0,
        log: 0,
        list: 0,
        chunk: 0,
        free: 0,
        longest: 0,
    }
}

// The row of group k, or 29.
pub(crate) fn row_in(s: Summary, k: u64) -> Row
    ensures { result ≡ row_by_summary s k }
{
    if k < s.agcount {
        return Row {
            number: 0,
            group: k,
            length: length_in(s, k),
            log: log_in(s, k),
            list: s.list,
            chunk: chunk_in(s, k),
            free: free_in(s, k),
            longest: longest_in(s, k),
        };
    }
    no_row(refusals::NO_PLACE)
}
