// Logarithms of powers of two.
ghost use Rattle.std.specs.Prelude.{◌≡◌};
ghost use Rattle.arith.specs.Powers.{log2_up, power_log};

// The logarithm of a power of two from 512 to 65536, and 0 of any other number.
pub fn pow2_log(v: u32) -> u8
    ensures { result ≡ power_log v }
{
    match v {
        512 => 9,
        1024 => 10,
        2048 => 11,
        4096 => 12,
        8192 => 13,
        16384 => 14,
        32768 => 15,
        65536 => 16,
        _ => 0,
    }
}

// The least l with 2^l at least n; 64 above 2^63.
pub fn log2_roundup(n: u64) -> u8
    ensures { result ≡ log2_up n }
{
    match n.checked_next_power_of_two() {
        Some(p) => p.ilog2() as u8,
        None => 64,
    }
}
