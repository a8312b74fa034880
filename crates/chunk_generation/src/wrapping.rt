// The product of two numbers of 64 bits, wrapped: what the generator of inode generations multiplies with.
ghost use Rattle.std.specs.Prelude.{◌≡◌, ◌*◌, ◌%◌, ◌^◌, ◌<◌};

// 2^32
const HALF: u64 = 0x1_0000_0000;

// The product of two halves fits 64 bits.
fn product(a: u64, b: u64) -> u64
    requires { (a < 2 ^ 32) × (b < 2 ^ 32) }
    ensures { result ≡ a * b }
{
    a * b
}

// The low 64 bits of the product.
pub fn wrapping_mul(a: u64, b: u64) -> u64
    ensures { result ≡ (a * b) % 2 ^ 64 }
{
    let low = product(a % HALF, b % HALF);
    let left = product(a / HALF, b % HALF);
    let right = product(a % HALF, b / HALF);
    let middle = (left % HALF + right % HALF) % HALF;
    std::num::wrapping_add_u64(low, middle * HALF)
}
