// Generations of inodes: splitmix64, one 64-bit state whose sums and products wrap. The Rust's Gen of format.rs.
#![tactic(auto)]

ghost use Rattle.std.specs.Prelude.{◌≡◌, ◌%◌, ◌^◌, ◌<◌};
ghost use Rattle.chunk_generation.specs.Draw.{folded, mixed, drawn};

pub mod wrapping; // wrapping.rt: products of 64 bits

use wrapping::wrapping_mul;

// What each draw adds to the state, and the factors of its two products.
pub const STEP: u64 = 0x9e37_79b9_7f4a_7c15;

const FIRST: u64 = 0xbf58_476d_1ce4_e5b9;

const SECOND: u64 = 0x94d0_49bb_1331_11eb;

// The state after a draw, and the generation drawn.
#[derive(Clone, Copy)]
pub struct Drawn {
    pub state: u64,
    pub value: u32,
}

// z with its bits from n on folded over the lowest.
fn fold(z: u64, n: u8) -> u64
    requires { n < 64 }
    ensures { result ≡ folded n z }
{
    z ^ (z >> n)
}

// z folded, and then multiplied.
fn mix(z: u64, n: u8, factor: u64) -> u64
    requires { n < 64 }
    ensures { result ≡ mixed n factor z }
{
    wrapping_mul(fold(z, n), factor)
}

// The low 32 bits.
fn low(z: u64) -> u32
    ensures { result ≡ z % 2 ^ 32 }
{
    (z % 0x1_0000_0000) as u32
}

// The next generation.
pub fn draw(state: u64) -> Drawn
    ensures { result ≡ drawn state }
{
    let next = std::num::wrapping_add_u64(state, STEP);
    let z = mix(mix(next, 30, FIRST), 27, SECOND);
    let value = low(fold(z, 31));
    Drawn { state: next, value }
}
