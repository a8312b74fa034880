// Whether a group, its block and a slot are there.
ghost use Rattle.std.specs.Prelude.{◌≡◌, ◌==◌, ◌*◌, ◌-◌, ◌<◌, cond, Ok, Err};
ghost use Rattle.geometry_layout.specs.Places.{group_blocks};
ghost use Rattle.geometry_places.specs.Answers.{group_refusal, place_refusal, slot_refusal, ag_blocks};

use geometry::Geometry;
use geometry_answers::is_answer;

// Blocks of a group, for numbers that a geometry has: the last group has what is left.
fn group_blocks(dblocks: u64, agsize: u64, agcount: u64, agno: u64) -> u64
    requires { (agcount - 1) * agsize < dblocks }
    ensures { result ≡ group_blocks dblocks agsize agcount agno }
{
    if agno == agcount.saturating_sub(1) {
        dblocks.saturating_sub(agno * agsize)
    } else {
        agsize
    }
}

// 31, 29 for a group that is not there, or 0.
pub fn group_refusal(g: Geometry, agno: u64) -> u32
    ensures { result ≡ group_refusal g agno }
{
    if !is_answer(g) {
        return refusals::NO_ANSWER;
    }
    if g.agcount <= agno {
        return refusals::NO_PLACE;
    }
    0
}

// The number of a refusal as an answer: 0 refuses nothing.
pub(crate) fn accepted(n: u32) -> Result<(), u32>
    ensures { result ≡ cond (n == 0) (Ok tt) (Err n) }
{
    if n == 0 { Ok(()) } else { Err(n) }
}

// Blocks of the group agno.
pub fn ag_blocks(g: Geometry, agno: u64) -> Result<u64, u32>
    ensures { result ≡ ag_blocks g agno }
{
    accepted(group_refusal(g, agno))?;
    Ok(group_blocks(g.dblocks, g.agsize, g.agcount, agno))
}

// 31, 29 for a group or a block that is not there, or 0.
pub fn place_refusal(g: Geometry, agno: u64, agbno: u64) -> u32
    ensures { result ≡ place_refusal g agno agbno }
{
    if !is_answer(g) {
        return refusals::NO_ANSWER;
    }
    if g.agcount <= agno {
        return refusals::NO_PLACE;
    }
    if group_blocks(g.dblocks, g.agsize, g.agcount, agno) <= agbno {
        return refusals::NO_PLACE;
    }
    0
}

// 31, 29 for a group, a block or a slot that is not there, or 0.
pub fn slot_refusal(g: Geometry, agno: u64, agbno: u64, slot: u64) -> u32
    ensures { result ≡ slot_refusal g agno agbno slot }
{
    let n = place_refusal(g, agno, agbno);
    if n != 0 {
        return n;
    }
    if g.inopblock as u64 <= slot {
        return refusals::NO_PLACE;
    }
    0
}
