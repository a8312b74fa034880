// What the reader vouches for, as a contract.
#![tactic(auto)]

ghost use Rattle.std.specs.Prelude.{◌≡◌, true, ◌↔◌};
ghost use Rattle.reader_vouch.specs.Leaving.{SomeLeaves};

use reader::read_group0;

// Whether the written records of some accepted run, of either sizing, leave these bytes as the head of group 0, whatever the device held.
pub fn vouches(head: &[u8]) -> bool
    ensures { (result ≡ true) ↔ SomeLeaves head.now }
{
    let found = read_group0(head);
    found.number == 0
}
