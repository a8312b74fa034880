// The input as records, one after the other: what each gives, whether all are known, and the value of a key.
#![tactic(auto)]

ghost use Rattle.std.specs.Prelude.{◌≡◌, ◌+◌, ◌≤◌, ◌<◌, length, get_or, is_some};
ghost use Rattle.request_input.specs.Records.{option_bits, option_fits, record_known, whole_record, no_record, record_at, records, value_with, sound, well_formed};
ghost use Rattle.endian.specs.Bytes.{be_at};

// The marks, two bytes each.
const DV: u16 = 0x4456;

const OP: u16 = 0x4f50;

const LB: u16 = 0x4c42;

const ID: u16 = 0x4944;

// The keys: the device, the label, the UUID, and behind them the option of each code.
pub const DEVICE: usize = 0;

pub const LABEL: usize = 1;

pub const UUID: usize = 2;

pub const OPTION: usize = 3;

// The bits of each option's type, by its code; the code 0 is no option's.
const CODES: usize = 14;

const OPTION_BITS: [u8; CODES] = [0, 64, 32, 32, 32, 64, 64, 8, 64, 7, 64, 32, 1, 1];

// What a record gives: an option's number, or where the bytes of another begin; and where the next one begins.
#[derive(Clone, Copy)]
pub struct Record {
    pub key: usize,
    pub value: u64,
    pub next: usize,
}

// The bits of the type of the option with the code; 0 where there is none.
#[tactic(auto, unfolding(crate::specs::Records::option_bits))]
fn option_bits(code: usize) -> u8
    ensures { result ≡ get_or option_bits code 0 }
{
    OPTION_BITS.get(code).copied().unwrap_or(0)
}

// Whether there is an option with the code, and the number fits its type.
fn number_fits(code: usize, n: u64) -> bool
    ensures { result ≡ option_fits code n }
{
    match option_bits(code) {
        0 => false,
        64.. => true,
        bits => n >> bits == 0,
    }
}

fn is_known(key: usize, value: u64) -> bool
    ensures { result ≡ record_known key value }
{
    key < OPTION || number_fits(key - OPTION, value)
}

// No record: nothing is read behind it.
fn no_record(len: usize) -> Record
    ensures { result ≡ no_record len }
{
    Record {
        key: OPTION,
        value: 0,
        next: len,
    }
}

// The record of `size` bytes at `at`, unless it is cut.
fn whole_record(len: usize, key: usize, value: u64, at: usize, size: usize) -> Record
    requires { at ≤ len }
    ensures { result ≡ whole_record len key value (at + size) }
{
    if len - at < size {
        return no_record(len);
    }
    Record {
        key,
        value,
        next: at + size,
    }
}

fn option_record(input: &[u8], at: usize) -> Record
    requires { at + 3 ≤ length input.now }
    ensures { result ≡ whole_record (length input.now) (3 + get_or input.now (at + 2) 0)
        (be_at 8 (at + 3) input.now) (at + 11) }
{
    if input.len() - at < 11 {
        return no_record(input.len());
    }
    Record {
        key: OPTION + usize::from(input[at + 2]),
        value: endian::be64(input, at + 3).value,
        next: at + 11,
    }
}

// The record at `at`, by its mark.
fn record_at(input: &[u8], at: usize) -> Record
    requires { at < length input.now }
    ensures { (result ≡ record_at at input.now) × (at < result.next) × (result.next ≤ length input.now) }
{
    let len = input.len();
    if len - at < 3 {
        return no_record(len);
    }
    match endian::be16(input, at).value {
        DV => whole_record(len, DEVICE, (at + 2) as u64, at, 18),
        OP => option_record(input, at),
        LB => whole_record(
            len,
            LABEL,
            (at + 2) as u64,
            at,
            3 + usize::from(input[at + 2]),
        ),
        ID => whole_record(len, UUID, (at + 2) as u64, at, 18),
        _ => no_record(len),
    }
}

// The value of the first record with the key, from `from` on.
pub fn value_of(input: &[u8], from: usize, key: usize) -> Option<u64>
    ensures { result ≡ value_with key (records from input.now) }
{
    // How far the next record stands shows only once this one is read: an iterator of our own would hold this same walk.
    let mut at = from;
    while at < input.len() {
        let r = record_at(input, at);
        if r.key == key {
            return Some(r.value);
        }
        at = r.next;
    }
    None
}

fn is_given(option: Option<u64>) -> bool
    ensures { result ≡ is_some option }
{
    matches!(option, Some(_))
}

// Whether every record is known, and none has the key of a later one.
fn all_sound(input: &[u8]) -> bool
    ensures { result ≡ sound (records 0 input.now) }
{
    // How far the next record stands shows only once this one is read: an iterator of our own would hold this same walk.
    let mut at = 0;
    while at < input.len() {
        let r = record_at(input, at);
        if !is_known(r.key, r.value) {
            return false;
        }
        if is_given(value_of(input, r.next, r.key)) {
            return false;
        }
        at = r.next;
    }
    true
}

// Whether the input is well-formed: its records are sound, and the device's stands first.
pub fn well_formed(input: &[u8]) -> bool
    ensures { result ≡ well_formed input.now }
{
    if input.is_empty() {
        return false;
    }
    record_at(input, 0).key == DEVICE && all_sound(input)
}
