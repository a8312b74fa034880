// The plans of all groups in a few numbers, in constant time: whether all are accepted, and what each group's row comes from.
#![tactic(auto)]

ghost use Rattle.std.specs.Prelude.{◌≡◌, true, ◌*◌, ◌≤◌, ◌<◌, ◌^◌};
ghost use Rattle.geometry_answers.specs.Named.{is_answer};
ghost use Rattle.plan_site.specs.Sites.{site_of, SoundSite};
ghost use Rattle.plan_closed.specs.Closed.{list_short};
ghost use Rattle.plan_totals.specs.Totals.{plans_number, free_count_answer, const_count, closed_total};
ghost use Rattle.plan_summary.specs.Summaries.{summary_of, no_summary, summarised};

pub mod records; // records.rt: the free records of one plan

use geometry::Geometry;
use plan_site::{Site, site_of};
use table_lines::Total;

// Blocks, those of one group in 32 bits; `chunk_at` is a place in group 0.
#[derive(Clone, Copy)]
pub struct Summary {
    pub agcount: u64, // groups
    pub agsize: u32,
    pub last: u32, // of the last group
    pub logagno: u64, // the log's group
    pub logblocks: u32,
    pub head: u32, // preallocated in each group
    pub list: u32, // on each free list
    pub chunk_at: u32,
    pub chunk: u32,
    pub count: u64, // free and on free lists, in all groups
    pub total: Total,
}

// The number is 0 where every plan of an answer is accepted; a refusal has the summary of zeros.
#[derive(Clone, Copy)]
pub struct Summarised {
    pub number: u32,
    pub summary: Summary,
}

// The summary of zeros: no groups.
pub fn no_summary() -> Summary
    ensures { result ≡ no_summary }
{
    let total = Total {
        length: 0,
        log: 0,
        list: 0,
        chunk: 0,
        free: 0,
    };
    Summary {
        agcount: 0,
        agsize: 0,
        last: 0,
        logagno: 0,
        logblocks: 0,
        head: 0,
        list: 0,
        chunk_at: 0,
        chunk: 0,
        count: 0,
        total,
    }
}

fn refused(n: u32) -> Summarised
    ensures { result ≡ record { number = n; summary = no_summary } }
{
    let summary = no_summary();
    Summarised { number: n, summary }
}

// The log group at this site is short of blocks for its free list.
fn is_short(s: Site) -> bool
    requires { (SoundSite s) × (s.has_log ≡ true) }
    ensures { result ≡ list_short s }
{
    let after = s.log_at + s.log_blocks;
    s.length.saturating_sub(after) < s.need
}

// A few blocks of each group.
fn of_each(groups: u64, blocks: u32) -> u64
    requires { (groups < 2 ^ 32) × (blocks ≤ 10) }
    ensures { result ≡ groups * blocks }
{
    groups * (blocks as u64)
}

// All blocks but heads, log and chunk.
fn count_with(g: Geometry, s: Site) -> u64
    requires { (is_answer g ≡ true) × (s ≡ site_of g g.logagno) }
    ensures { result ≡ const_count g }
{
    let heads = of_each(g.agcount, s.head);
    let after = g.dblocks.saturating_sub(heads).saturating_sub(g.logblocks);
    after.saturating_sub(s.chunk_blocks as u64)
}

// Sums over all groups, of an answer whose log group has this site.
fn total_with(g: Geometry, s: Site, count: u64) -> Total
    requires { (is_answer g ≡ true) × (s ≡ site_of g g.logagno) × (count ≡ const_count g) }
    ensures { result ≡ closed_total g }
{
    let list = of_each(g.agcount, s.need);
    Total {
        length: g.dblocks,
        log: g.logblocks,
        list,
        chunk: s.chunk_blocks as u64,
        free: count.saturating_sub(list),
    }
}

// The numbers of an answer, whose log group has this site.
fn summary_with(g: Geometry, s: Site) -> Summary
    requires { (is_answer g ≡ true) × (s ≡ site_of g g.logagno) }
    ensures { result ≡ summary_of g }
{
    let before = g.agcount.saturating_sub(1) * g.agsize;
    let count = count_with(g, s);
    let total = total_with(g, s, count);
    Summary {
        agcount: g.agcount,
        agsize: g.agsize as u32,
        last: g.dblocks.saturating_sub(before) as u32,
        logagno: g.logagno,
        logblocks: s.log_blocks,
        head: s.head,
        list: s.need,
        chunk_at: s.chunk_at,
        chunk: s.chunk_blocks,
        count,
        total,
    }
}

// The summary of a geometry: 31, 25 where a plan is refused.
pub fn summary_of(g: Geometry) -> Summarised
    ensures { result ≡ summarised g }
{
    let at = site_of(g, g.logagno);
    let number = at.number;
    if number != 0 {
        return refused(number);
    }
    let s = at.site;
    if is_short(s) {
        return refused(refusals::FREE_LIST_SHORT);
    }
    let summary = summary_with(g, s);
    Summarised { number: 0, summary }
}

// Whether every plan of the geometry is accepted: 0, 31, or 25.
pub fn plans_number(g: Geometry) -> u32
    ensures { result ≡ plans_number g }
{
    let s = summary_of(g);
    s.number
}

// The free count of the whole disk: 31, 25, or free and free-list blocks of all groups.
pub fn free_count(g: Geometry) -> Result<u64, u32>
    ensures { result ≡ free_count_answer g }
{
    let s = summary_of(g);
    let number = s.number;
    if number != 0 {
        return Err(number);
    }
    let t = s.summary;
    Ok(t.count)
}
