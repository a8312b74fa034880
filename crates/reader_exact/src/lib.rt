// The reader accepts exactly the bytes that an accepted run leaves, in every head, in the log block and on the whole disk. The type alone;
// the definitions and theorems stand in specs/ and proofs/.
#![tactic(auto)]

use geometry::Geometry;
use plan::AgPlan;

// What group 0's head gives. The number is 0 for accepted bytes; a refusal has zeros.
#[derive(Clone, Copy)]
pub struct Found {
    pub number: u32,
    pub geometry: Geometry,
    pub uuid: [u8; 16],
    pub plan: AgPlan,
}
