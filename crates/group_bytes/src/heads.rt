// A head with a state of its superblock.
ghost use Rattle.std.specs.Prelude.{◌≡◌, ◌<◌, length};
ghost use Rattle.crc.specs.Right.{already_right};
ghost use Rattle.plan.specs.Plan.{planned};
ghost use Rattle.plan_totals.specs.Totals.{plans_number};
ghost use Rattle.head_bytes.specs.Head.{head_bytes};
ghost use Rattle.head_bytes.specs.Places.{head_places};
ghost use Rattle.group_bytes.specs.Answers.{head_refusal, left_state};

use crate::head_length;
use geometry::Geometry;
use head::group_head;
use plan_summary::plans_number;
use refusals::NO_PLACE;
use sb::SbState;
use sb_states::{Stated, finished_state, state_of};

// The number of all plans, which a state of a group that is there was refused with; it is asked only of a group that isn't.
fn plans_known(g: Geometry, k: u64, stated: u32) -> u32
    requires { k < g.agcount → stated ≡ plans_number g }
    ensures { result ≡ plans_number g }
{
    if g.agcount <= k {
        return plans_number(g);
    }
    stated
}

// 31, 25, 27, 29, or 0, where `stated` is the number of group k's state.
pub(crate) fn head_number(g: Geometry, k: u64, stated: u32, len: usize) -> u32
    requires { k < g.agcount → stated ≡ plans_number g }
    ensures { result ≡ head_refusal g k len }
{
    let plans = plans_known(g, k, stated);
    if plans != 0 {
        return plans;
    }
    let f = g.features;
    if len != head_length(f, g.sectsize, g.blocksize) {
        return refusals::WRONG_LENGTH;
    }
    if k < g.agcount {
        return 0;
    }
    NO_PLACE
}

// The state of group k's superblock at the end of a run.
pub(crate) fn left_state(g: Geometry, uuid: [u8; 16], k: u64) -> Stated
    ensures { result ≡ left_state g uuid k }
{
    if k == 0 {
        return finished_state(g, uuid);
    }
    state_of(g, uuid, k)
}

// Group k's head with this state, and whether its checksums stood there already.
pub(crate) fn fill_head(
    g: Geometry,
    uuid: [u8; 16],
    k: u64,
    state: SbState,
    head: &mut [u8],
) -> bool
    requires { head_refusal g k (length head.old) ≡ 0 }
    ensures { (result ≡ already_right (head_places g) head.old (head_bytes g (planned g k).plan uuid state))
        × (head.new ≡ head_bytes g (planned g k).plan uuid state) }
{
    let made = group_head(g, k, &uuid, state, head);
    made.right
}
