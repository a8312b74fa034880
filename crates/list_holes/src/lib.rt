// Zeros that a disk has already: whether they lie in a hole of a plain file, where they need no write, and whether bytes that were read are
// zeros alone.
#![tactic(auto)]

ghost use Rattle.std.specs.Prelude.{◌≡◌};
ghost use Rattle.list_holes.specs.Holes.{in_hole, is_blank};

// Whether `len` bytes from `at` on lie in a hole. `hole` is where the first hole from there on begins and `next` where the next data
// does, the largest number where no data follows.
pub fn in_hole(hole: u64, next: u64, at: u64, len: u64) -> bool
    ensures { result ≡ in_hole hole next at len }
{
    if hole != at {
        return false;
    }
    if next < at {
        return false;
    }
    if len <= next - at {
        return true;
    }
    false
}

// Whether the bytes are zeros alone.
pub fn is_blank(bytes: &[u8]) -> bool
    ensures { result ≡ is_blank bytes.now }
{
    bytes.iter().all(|b| *b == 0)
}
