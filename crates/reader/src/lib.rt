// The reader: whether an accepted run leaves the bytes that stand in a place. What the bytes name is read, the place's bytes are made anew
// from it, and the two are compared.
#![tactic(auto)]

ghost use Rattle.std.specs.Prelude.{◌≡◌};
ghost use Rattle.plan.specs.Plan.{refused_plan};
ghost use Rattle.reader_exact.specs.Read.{not_found, read_sized, read_group0, read_group, read_log};

use geometry::Geometry;
use plan::{AgPlan, Agfl, Planned, plan_ag};
use reader_compare::heads::group_number;
use reader_compare::logs::log_number;
use reader_exact::Found;
use reader_names::{named_by, uuid_of};
use refusals::{NOT_LEFT, WRONG_LENGTH};

fn no_plan(n: u32) -> Planned
    ensures { result ≡ refused_plan n }
{
    let free = plan_free::empty();
    let blocks = [0u32; 64];
    let agfl = Agfl { blocks, len: 0 };
    let rmap = plan_rmap::empty();
    let chunk = None;
    let plan = AgPlan {
        agno: 0,
        length: 0,
        free,
        agfl,
        rmap,
        chunk,
    };
    Planned { number: n, plan }
}

fn not_found(n: u32) -> Found
    ensures { result ≡ not_found n }
{
    let geometry = Geometry::zero();
    let uuid = [0u8; 16];
    let none = no_plan(n);
    let plan = none.plan;
    Found {
        number: n,
        geometry,
        uuid,
        plan,
    }
}

// The head of group 0 under one sizing of the log.
fn read_as(head: &[u8], roomy: bool) -> Found
    ensures { result ≡ read_sized roomy head.now }
{
    if head.len() < reader_names::LEAST_SECTOR {
        return not_found(WRONG_LENGTH);
    }
    let named = named_by(head, roomy);
    if named.number != 0 {
        return not_found(NOT_LEFT);
    }
    let geometry = named.geometry;
    let uuid = uuid_of(head);
    let n = group_number(geometry, uuid, 0, head);
    if n != 0 {
        return not_found(n);
    }
    let planned = plan_ag(geometry, 0);
    let plan = planned.plan;
    Found {
        number: 0,
        geometry,
        uuid,
        plan,
    }
}

// The head of group 0: its geometry, UUID and plan. 27 under 512 bytes; 30 where the superblock names no geometry that the geometry step
// accepts under either sizing; 27 for another length than the head's; 30 unless an accepted run of either sizing leaves these bytes here.
// Where both leave them, plain sizing is given.
pub fn read_group0(head: &[u8]) -> Found
    ensures { result ≡ read_group0 head.now }
{
    let old = read_as(head, false);
    if old.number == 0 {
        return old;
    }
    let roomy = read_as(head, true);
    if roomy.number < old.number {
        return roomy;
    }
    old
}

// The head of any group, with the geometry and the UUID that group 0 gave: its plan. 31 where the geometry is no answer of the geometry
// step; 29; 27; 30 unless an accepted run with these leaves these bytes here.
pub fn read_group(g: Geometry, uuid: [u8; 16], agno: u64, head: &[u8]) -> Planned
    ensures { result ≡ read_group g uuid agno head.now }
{
    let n = group_number(g, uuid, agno, head);
    if n != 0 {
        return no_plan(n);
    }
    let planned = plan_ag(g, agno);
    let plan = planned.plan;
    Planned { number: 0, plan }
}

// The log's first block, with the same: 31, 27, 30, or 0.
pub fn read_log(g: Geometry, uuid: [u8; 16], block: &[u8]) -> u32
    ensures { result ≡ read_log g uuid block.now }
{
    log_number(g, uuid, block)
}
