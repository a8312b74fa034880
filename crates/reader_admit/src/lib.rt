// A reader that is told to admit profile disks only: the step behind an answer of the reader, which stays as it is where it isn't told so.
#![tactic(auto)]

ghost use Rattle.std.specs.Prelude.{◌≡◌};
ghost use Rattle.reader_admit.specs.Admit.{admitted};

use arith::choice::pick;
use geometry::Geometry;
use profile::{label_on, profile_number};

// The reader's number, which comes first, then 37 where it is told to admit profile disks only and this geometry's disk is none. The
// geometry is the one that group 0's head gave, or that was handed in with a group's head or the log block.
pub fn admit(told: bool, g: Geometry, number: u32) -> u32
    ensures { result ≡ admitted told g number }
{
    let label = label_on(g);
    let n = profile_number(told, g, label);
    pick(number == 0, n, number)
}
