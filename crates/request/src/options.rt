// The options that the records of a well-formed input give.
ghost use Rattle.std.specs.Prelude.{◌≡◌, true, ◌+◌, ◌≤◌, ◌<◌, length, get_or};
ghost use Rattle.endian.specs.Fields.{part};
ghost use Rattle.request_input.specs.Records.{option_bits, records, value_with, well_formed};
ghost use Rattle.request.specs.Options.{OptBelow, LabelInside, UuidInside, short32, short8, signed, given_time, time_given, on, features_in, features_given, turned_on, label_at, label_given, uuid_given, params_of, profile_of};

use params::{Features, Label, Params, Timestamp};
use request_input::{LABEL, OPTION, UUID, value_of};

// The codes.
const SIZE: usize = 1;

const BLOCK: usize = 2;

const SECTOR: usize = 3;

const INODE: usize = 4;

const AGCOUNT: usize = 5;

const AGSIZE: usize = 6;

const IMAXPCT: usize = 7;

const SEED: usize = 8;

const FEATURES: usize = 9;

const SECONDS: usize = 10;

const NANOSECONDS: usize = 11;

const ROOMY: usize = 12;

const PROFILE: usize = 13;

fn short(option: Option<u64>) -> Option<u32>
    requires { OptBelow 4294967296 option }
    ensures { result ≡ short32 option }
{
    match option {
        Some(n) => Some(n as u32),
        None => None,
    }
}

fn byte(option: Option<u64>) -> Option<u8>
    requires { OptBelow 256 option }
    ensures { result ≡ short8 option }
{
    match option {
        Some(n) => Some(n as u8),
        None => None,
    }
}

// A number of 64 bits in two's complement.
fn signed_of(n: u64) -> i64
    ensures { result ≡ signed n }
{
    n.cast_signed()
}

fn given_time(secs: u64, nsecs: u64) -> Option<Timestamp>
    requires { nsecs < 4294967296 }
    ensures { result ≡ given_time secs nsecs }
{
    Some(Timestamp {
        secs: signed_of(secs),
        nsecs: nsecs as u32,
    })
}

fn time_of(secs: Option<u64>, nsecs: Option<u64>) -> Option<Timestamp>
    requires { OptBelow 4294967296 nsecs }
    ensures { result ≡ time_given secs nsecs }
{
    match (secs, nsecs) {
        (Some(s), Some(n)) => given_time(s, n),
        (Some(s), None) => given_time(s, 0),
        (None, Some(n)) => given_time(0, n),
        (None, None) => None,
    }
}

// Whether the bit `k` is on.
fn is_on(k: u64, n: u64) -> bool
    requires { k < 64 }
    ensures { result ≡ on k n }
{
    (n >> k) % 2 == 1
}

fn features_in(n: u64) -> Features
    ensures { result ≡ features_in n }
{
    Features {
        finobt: is_on(0, n),
        rmapbt: is_on(1, n),
        reflink: is_on(2, n),
        inobtcount: is_on(3, n),
        bigtime: is_on(4, n),
        nrext64: is_on(5, n),
        sparse: is_on(6, n),
    }
}

fn features_of(option: Option<u64>) -> Features
    ensures { result ≡ features_given option }
{
    match option {
        Some(n) => features_in(n),
        None => Features::default(),
    }
}

// Whether an option of one bit is given as 1.
fn turned_on(option: Option<u64>) -> bool
    ensures { result ≡ turned_on option }
{
    matches!(option, Some(1))
}

// The label whose length stands at `p`.
fn label_at(input: &[u8], p: usize) -> Label
    requires { p + 1 + get_or input.now p 0 ≤ length input.now }
    ensures { result ≡ label_at p input.now }
{
    let count = usize::from(input[p]);
    let n = count.min(12);
    let mut bytes = [0u8; 12];
    bytes[..n].copy_from_slice(&input[p + 1..p + 1 + n]);
    Label {
        length: count,
        bytes,
    }
}

fn label_of(input: &[u8], place: Option<u64>) -> Label
    requires { LabelInside input.now place }
    ensures { result ≡ label_given place input.now }
{
    match place {
        Some(p) => label_at(input, p as usize),
        None => Label {
            length: 0,
            bytes: [0; 12],
        },
    }
}

// The 16 bytes at `p`.
fn sixteen_at(input: &[u8], p: usize) -> [u8; 16]
    requires { p + 16 ≤ length input.now }
    ensures { result ≡ part p 16 input.now }
{
    let mut bytes = [0u8; 16];
    bytes.copy_from_slice(&input[p..p + 16]);
    bytes
}

fn uuid_of(input: &[u8], place: Option<u64>) -> Option<[u8; 16]>
    requires { UuidInside input.now place }
    ensures { result ≡ uuid_given place input.now }
{
    match place {
        Some(p) => Some(sixteen_at(input, p as usize)),
        None => None,
    }
}

// ---- each option of a well-formed input

fn option(input: &[u8], code: usize) -> Option<u64>
    requires { code < 256 }
    ensures { result ≡ value_with (3 + code) (records 0 input.now) }
{
    value_of(input, 0, OPTION + code)
}

fn short_option(input: &[u8], code: usize) -> Option<u32>
    requires { (well_formed input.now ≡ true) × (code < 256) × (get_or option_bits code 0 ≡ 32) }
    ensures { result ≡ short32 (value_with (3 + code) (records 0 input.now)) }
{
    short(option(input, code))
}

fn imaxpct(input: &[u8]) -> Option<u8>
    requires { well_formed input.now ≡ true }
    ensures { result ≡ short8 (value_with (3 + 7) (records 0 input.now)) }
{
    byte(option(input, IMAXPCT))
}

fn label_in(input: &[u8]) -> Label
    ensures { result ≡ label_given (value_with 1 (records 0 input.now)) input.now }
{
    label_of(input, value_of(input, 0, LABEL))
}

fn uuid_in(input: &[u8]) -> Option<[u8; 16]>
    ensures { result ≡ uuid_given (value_with 2 (records 0 input.now)) input.now }
{
    uuid_of(input, value_of(input, 0, UUID))
}

fn time_in(input: &[u8]) -> Option<Timestamp>
    requires { well_formed input.now ≡ true }
    ensures { result ≡ time_given (value_with (3 + 10) (records 0 input.now))
        (value_with (3 + 11) (records 0 input.now)) }
{
    let seconds = option(input, SECONDS);
    time_of(seconds, option(input, NANOSECONDS))
}

// All options of a well-formed input.
pub(crate) fn params_of(input: &[u8]) -> Params
    requires { well_formed input.now ≡ true }
    ensures { result ≡ params_of input.now }
{
    Params {
        size: option(input, SIZE),
        block_size: short_option(input, BLOCK),
        sector_size: short_option(input, SECTOR),
        inode_size: short_option(input, INODE),
        agcount: option(input, AGCOUNT),
        agsize: option(input, AGSIZE),
        imaxpct: imaxpct(input),
        label: label_in(input),
        uuid: uuid_in(input),
        time: time_in(input),
        gen_seed: option(input, SEED),
        features: features_of(option(input, FEATURES)),
        roomy: turned_on(option(input, ROOMY)),
    }
}

// Whether the input puts the run under the profile.
pub(crate) fn profile_of(input: &[u8]) -> bool
    ensures { result ≡ profile_of input.now }
{
    turned_on(option(input, PROFILE))
}
