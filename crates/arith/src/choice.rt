// Picking by a test, without a branch in the caller.
ghost use Rattle.std.specs.Prelude.{◌≡◌, ◌&&◌};
ghost use Rattle.arith.specs.Choice.{when, bit, same_bool};

// 1 of true, 0 of false.
pub fn bit_of(b: bool) -> u64
    ensures { result ≡ bit b }
{
    if b { 1 } else { 0 }
}

// Both hold.
pub fn both(a: bool, b: bool) -> bool
    ensures { result ≡ (a && b) }
{
    if a { b } else { false }
}

// Both hold, or neither.
pub fn same_bool(a: bool, b: bool) -> bool
    ensures { result ≡ same_bool a b }
{
    if a { b } else { !b }
}

// a where the test holds, else b.
pub fn pick<T: Copy>(test: bool, a: T, b: T) -> T
    ensures { result ≡ when test a b }
{
    if test { a } else { b }
}
