// Minimum, quotient and remainder, as natural numbers have them: x / 0 is 0, x % 0 is x.
ghost use Rattle.std.specs.Prelude.{◌≡◌, ◌*◌, ◌/◌, ◌%◌, ◌^◌, min, max, ltb};
ghost use Rattle.arith.specs.Numbers.{ceil_div};

use crate::choice::bit_of;

pub fn max_u32(a: u32, b: u32) -> u32
    ensures { result ≡ max a b }
{
    if a < b { b } else { a }
}

pub fn max_u64(a: u64, b: u64) -> u64
    ensures { result ≡ max a b }
{
    if a < b { b } else { a }
}

pub fn min_u64(a: u64, b: u64) -> u64
    ensures { result ≡ min a b }
{
    if a < b { a } else { b }
}

pub fn min_usize(a: usize, b: usize) -> usize
    ensures { result ≡ min a b }
{
    if a < b { a } else { b }
}

// The quotient, 0 for the divisor 0.
pub fn quotient(a: u64, b: u64) -> u64
    ensures { result ≡ a / b }
{
    if b == 0 { 0 } else { a / b }
}

// The same at 32 bits.
pub fn quotient_u32(a: u32, b: u32) -> u32
    ensures { result ≡ a / b }
{
    if b == 0 { 0 } else { a / b }
}

// The remainder, a for the divisor 0.
pub fn remainder(a: u64, b: u64) -> u64
    ensures { result ≡ a % b }
{
    if b == 0 { a } else { a % b }
}

// The quotient, rounded up.
pub fn div_ceil(a: u64, b: u64) -> u64
    ensures { result ≡ ceil_div a b }
{
    quotient(a, b) + bit_of(remainder(a, b) != 0)
}

// a rounded down to a multiple of b.
pub fn round_down(a: u64, b: u64) -> u64
    ensures { result ≡ a / b * b }
{
    quotient(a, b) * b
}

// The product fits 64 bits.
pub fn product_fits(a: u64, b: u64) -> bool
    ensures { result ≡ ltb (a * b) (2 ^ 64) }
{
    if b == 0 {
        true
    } else {
        a <= 0xffff_ffff_ffff_ffff / b
    }
}
