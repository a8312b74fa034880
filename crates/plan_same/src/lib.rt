// Whether a plan handed in is the planner's for its group: it is planned again and compared, slots past the counts included.
#![tactic(auto)]

ghost use Rattle.std.specs.Prelude.{◌≡◌};
ghost use Rattle.plan_same.specs.Same.{same_alloc, same_free, same_plan, is_plan};

use btree::AllocRec;
use geometry::Geometry;
use plan::{AgPlan, plan_ag};
use plan_free::FreeList;

pub fn same_alloc(a: AllocRec, b: AllocRec) -> bool
    ensures { result ≡ same_alloc a b }
{
    a == b
}

pub fn same_free(a: FreeList, b: FreeList) -> bool
    ensures { result ≡ same_free a b }
{
    a == b
}

// All fields of two plans are the same.
fn same_plan(a: AgPlan, b: AgPlan) -> bool
    ensures { result ≡ same_plan a b }
{
    a == b
}

// The plan is what `plan_ag` answers for its group.
pub fn is_plan(g: Geometry, p: AgPlan) -> bool
    ensures { result ≡ is_plan g p }
{
    let again = plan_ag(g, p.agno);
    again.number == 0 && same_plan(again.plan, p)
}
