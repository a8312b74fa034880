// A time, and the 64 bits that an inode stores of it. The Rust's encode_time and decode_time of structs/inode.rs.
#![tactic(auto)]

ghost use Rattle.std.specs.Prelude.{◌≡◌, true, false, MatchOption, ◌+◌, ◌*◌, ◌%◌, ◌^◌, ◌≤◌, ◌<◌, ltb};
ghost use Rattle.refusals.specs.Numbers.{time_out_of_range};
ghost use Rattle.structs.specs.Written.{require};
ghost use Rattle.inode_time.specs.Time.{ShiftedTime, StoredAs, value_if, decoded};

use params::Timestamp;

pub const NANOSECONDS: u64 = 1_000_000_000;

// What an inode stores of a time; `number` is 0, or 26 and the value 0.
#[derive(Clone, Copy)]
pub struct Stored {
    pub number: u32,
    pub value: u64,
}

// Seconds counted from −2,147,483,648 on; none where they lie before it, or above 16,299,260,425.
fn shift(secs: i64) -> Option<u64>
    ensures { MatchOption result (ShiftedTime secs false 0) (λ v. ShiftedTime secs true v) }
{
    if secs < -2147483648 {
        return None;
    }
    if 16299260425 < secs {
        return None;
    }
    Some((secs + 2147483648) as u64)
}

fn refused() -> Stored
    ensures { (result.number ≡ time_out_of_range) × (result.value ≡ 0) }
{
    Stored {
        number: refusals::TIME_OUT_OF_RANGE,
        value: 0,
    }
}

// With bigtime.
fn encode_big(shifted: u64, nsecs: u64) -> Stored
    requires { (shifted ≤ 18446744073) × (nsecs < 1000000000) }
    ensures { (result.number ≡ require time_out_of_range (ltb (shifted * 1000000000 + nsecs) (2 ^ 64)) 0)
        × (result.value ≡ value_if (ltb (shifted * 1000000000 + nsecs) (2 ^ 64)) (shifted * 1000000000 + nsecs)) }
{
    if shifted < 18446744073 {
        return Stored {
            number: 0,
            value: shifted * NANOSECONDS + nsecs,
        };
    }
    if nsecs <= 709551615 {
        return Stored {
            number: 0,
            value: shifted * NANOSECONDS + nsecs,
        };
    }
    refused()
}

// Without bigtime, of seconds up to 2,147,483,647.
fn encode_small(shifted: u64, nsecs: u64) -> Stored
    requires { (shifted ≤ 4294967295) × (nsecs < 1000000000) }
    ensures { (result.number ≡ 0) × (result.value ≡ (shifted + 2147483648) % 2 ^ 32 * 2 ^ 32 + nsecs) }
{
    Stored {
        number: 0,
        value: (shifted + 2147483648) % 4294967296 * 4294967296 + nsecs,
    }
}

// Without bigtime, seconds in 32 bits and nanoseconds; with it, nanoseconds since −2,147,483,648 s.
pub fn encode_time(t: Timestamp, bigtime: bool) -> Stored
    ensures { StoredAs bigtime t.secs t.nsecs result.number result.value }
{
    let nsecs = t.nsecs as u64;
    if NANOSECONDS <= nsecs {
        return refused();
    }
    let Some(v) = shift(t.secs) else {
        return refused();
    };
    if bigtime {
        return encode_big(v, nsecs);
    }
    if 2147483647 < t.secs {
        return refused();
    }
    encode_small(v, nsecs)
}

// The time that 64 bits of an inode are.
pub fn decode_time(raw: u64, bigtime: bool) -> Timestamp
    ensures { result ≡ decoded bigtime raw }
{
    if bigtime {
        return Timestamp {
            secs: (raw / 1000000000) as i64 - 2147483648,
            nsecs: (raw % 1000000000) as u32,
        };
    }
    let high = raw / 4294967296;
    let nsecs = (raw % 4294967296) as u32;
    if high < 2147483648 {
        return Timestamp {
            secs: high as i64,
            nsecs,
        };
    }
    Timestamp {
        secs: high as i64 - 4294967296,
        nsecs,
    }
}
