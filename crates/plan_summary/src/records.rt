// The free records of a plan of the planner: their blocks, and the longest. Every number is below 2^30, and held in 32 bits. The plan is
// handed in, or made here.
ghost use Rattle.std.specs.Prelude.{cond, ◌≡◌, ◌≤◌, ◌<◌, ◌^◌, eqb, sum_by, Ok, Err};
ghost use Rattle.plan_free.specs.Free.{free_of};
ghost use Rattle.geometry_counts.specs.Known.{known};
ghost use Rattle.plan_same.specs.Same.{is_plan};
ghost use Rattle.plan_totals.specs.Totals.{freeblks_of, longest_of};
ghost use Rattle.plan_summary.specs.Summaries.{free_totals, group_totals};

use geometry::Geometry;
use plan::{AgPlan, plan_ag};
use plan_free::FreeList;
use plan_same::is_plan;

// Blocks of a plan's free records, and of the longest. The number is 0 for a plan of the planner; a refusal has zeros.
#[derive(Clone, Copy)]
pub struct FreeTotals {
    pub number: u32,
    pub blocks: u32,
    pub longest: u32,
}

// A group's plan with these two. The number is 0 for an accepted plan; a refusal has zeros.
#[derive(Clone, Copy)]
pub struct GroupTotals {
    pub number: u32,
    pub plan: AgPlan,
    pub blocks: u32,
    pub longest: u32,
}

fn sum_of(l: FreeList) -> u32
    requires few { l.len ≤ 64 }
    requires fits { sum_by (λ r. r.count) (free_of l) < 2 ^ 32 }
    ensures { result ≡ sum_by (λ r. r.count) (free_of l) }
{
    l.recs[..l.len].iter().map(|r| r.count).sum()
}

fn longest_of(l: FreeList) -> u32
    requires { l.len ≤ 64 }
    ensures { result ≡ longest_of l }
{
    l.recs[..l.len].iter().fold(0, |most, r| most.max(r.count))
}

// Both totals; 31 unless the plan is the planner's for its group.
pub fn free_totals(g: Geometry, p: AgPlan) -> FreeTotals
    ensures { result ≡ free_totals g p }
{
    if !is_plan(g, p) {
        return FreeTotals {
            number: refusals::NO_ANSWER,
            blocks: 0,
            longest: 0,
        };
    }
    let l = p.free;
    FreeTotals {
        number: 0,
        blocks: sum_of(l),
        longest: longest_of(l),
    }
}

// The plan of group agno with both totals: 31, 29 and 25 as the planner.
pub fn group_totals(g: Geometry, agno: u64) -> GroupTotals
    ensures { result ≡ group_totals g agno }
{
    let answer = plan_ag(g, agno);
    let number = answer.number;
    let plan = answer.plan;
    if number != 0 {
        return GroupTotals {
            number,
            plan,
            blocks: 0,
            longest: 0,
        };
    }
    let l = plan.free;
    GroupTotals {
        number: 0,
        plan,
        blocks: sum_of(l),
        longest: longest_of(l),
    }
}

// The value beside a number of 0, or the refusal.
fn value_of(number: u32, n: u32) -> Result<u32, u32>
    ensures { result ≡ cond (eqb number 0) (Ok n) (Err number) }
{
    if number == 0 { Ok(n) } else { Err(number) }
}

// Free blocks in the free space btrees; 31 unless the plan is the planner's for its group.
pub fn freeblks(g: Geometry, p: AgPlan) -> Result<u32, u32>
    ensures { result ≡ known (is_plan g p) (freeblks_of p.free) }
{
    let t = free_totals(g, p);
    value_of(t.number, t.blocks)
}

// The longest free extent, 0 where there is none; 31 unless the plan is the planner's for its group.
pub fn longest(g: Geometry, p: AgPlan) -> Result<u32, u32>
    ensures { result ≡ known (is_plan g p) (longest_of p.free) }
{
    let t = free_totals(g, p);
    value_of(t.number, t.longest)
}
