// Numbers of a geometry, as the methods of the Rust's Geometry give them, for every geometry that is handed in:
// one that is no answer of the geometry step gets 31.
#![tactic(auto)]

ghost use Rattle.std.specs.Prelude.{◌≡◌};
ghost use Rattle.geometry_answers.specs.Named.{is_answer};
ghost use Rattle.geometry_counts.specs.Known.{known};

use geometry::Geometry;
use geometry_answers::is_answer;

pub mod head; // head.rt: the head of a group and its free list
pub mod inodes; // inodes.rt: chunks, clusters and their alignment
pub mod stripes; // stripes.rt: realtime extent and log stripe unit

// The value for an answer of the geometry step, else 31.
pub fn known<T: Drop>(g: Geometry, v: T) -> Result<T, u32>
    ensures { result ≡ known (is_answer g) v }
{
    if is_answer(g) {
        Ok(v)
    } else {
        Err(refusals::NO_ANSWER)
    }
}
