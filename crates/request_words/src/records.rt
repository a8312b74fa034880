// The input records that words ask for, written into a lent buffer.
ghost use Rattle.std.specs.Prelude.{◌≡◌, ◌++◌, ◌+◌, ◌*◌, ◌≤◌, ◌<◌, length, get_or};
ghost use Rattle.endian.specs.Bytes.{patch};
ghost use Rattle.request.specs.Cases.{dv, op};
ghost use Rattle.request_words.specs.Values.{codes};
ghost use Rattle.request_words.specs.Words.{words_from};
ghost use Rattle.request_words.specs.Asked.{digits_at, pair_at, pairs, device_record, option_record, option_records, label_record_of, uuid_record_of, words_request, longest, Puts, Makes};

use crate::values::{LABEL, LOGICAL, PHYSICAL, SIZE, UUID, hex};
use crate::words::{find, verdict};
use crate::{Made, Word};
use endian::{put_all, put_bytes};

// The marks.
const DV: u64 = 0x4456;

const OP: u64 = 0x4f50;

// Offset and width of each number of a device's and of an option's record.
const DEVICE_TABLE: [usize; 8] = [0, 2, 2, 8, 10, 4, 14, 4];

const OPTION_TABLE: [usize; 6] = [0, 2, 2, 1, 3, 8];

// Bytes of the longest records, which the buffer has to have.
pub const LONGEST: usize = 194;

// The codes of the options.
const CODES: usize = 13;

fn device_record(size: u64, logical: u64, physical: u64) -> [u8; 18]
    ensures { result ≡ dv size logical physical }
{
    let mut bytes = [0u8; 18];
    put_all(&mut bytes, &DEVICE_TABLE, &[DV, size, logical, physical]);
    bytes
}

fn option_record(code: u64, value: u64) -> [u8; 11]
    requires { code < 256 }
    ensures { result ≡ op code value }
{
    let mut bytes = [0u8; 11];
    put_all(&mut bytes, &OPTION_TABLE, &[OP, code, value]);
    bytes
}

// The byte that stands k behind an offset; 0 where none does.
fn byte_at(words: &[u8], from: usize, k: usize) -> u8
    ensures { result ≡ get_or words.now (from + k) 0 }
{
    from.checked_add(k)
        .and_then(|i| words.get(i).copied())
        .unwrap_or(0)
}

// Where the two digits of byte j stand in a UUID's text.
#[tactic(auto, unfolding(crate::specs::Asked::digits_at, arith::specs::Choice::when))]
fn digits_at(j: usize) -> usize
    requires { j < 16 }
    ensures { (result ≡ digits_at j) × (result ≤ 34) }
{
    match j {
        0..4 => 2 * j,
        4..6 => 2 * j + 1,
        6..8 => 2 * j + 2,
        8..10 => 2 * j + 3,
        _ => 2 * j + 4,
    }
}

// Byte j of the UUID whose text stands at `from`.
fn pair_at(words: &[u8], from: usize, j: usize) -> u8
    requires { j < 16 }
    ensures { result ≡ pair_at from j words.now }
{
    let k = digits_at(j);
    let high = hex(byte_at(words, from, k));
    let low = hex(byte_at(words, from, k + 1));
    high % 16 * 16 + low % 16
}

// The bytes of the UUID whose text stands at `from`.
fn pairs(words: &[u8], from: usize) -> [u8; 16]
    ensures { result ≡ pairs 16 0 from words.now }
{
    let mut bytes = [0; 16];
    for (j, b) in bytes.iter_mut().enumerate() {
        *b = pair_at(words, from, j);
    }
    bytes
}

// The device's record, at the buffer's start.
fn put_device(words: &[u8], buf: &mut [u8])
    requires { 18 ≤ length buf.old }
    ensures { buf.new ≡ patch 0 (device_record (words_from 0 words.now)) buf.old }
{
    let size = find(words, 0, SIZE);
    let logical = find(words, 0, LOGICAL);
    let physical = find(words, 0, PHYSICAL);
    let bytes = device_record(size.value, logical.value, physical.value);
    put_bytes(buf, 0, &bytes);
}

// The option's record, where its word is there; says where the next record begins.
fn put_option(words: &[u8], code: usize, buf: &mut [u8], at: usize) -> usize
    requires { (code < 18) × (at + 11 ≤ length buf.old) }
    ensures { Puts at (option_record code (words_from 0 words.now)) 11 buf.old result buf.new }
{
    let w = find(words, 0, code);
    if w.key == code {
        let bytes = option_record(code as u64, w.value);
        put_bytes(buf, at, &bytes);
        return at + 11;
    }
    at
}

// The records of the options by their codes.
fn put_options(words: &[u8], buf: &mut [u8], at: usize) -> usize
    requires { at + 143 ≤ length buf.old }
    ensures { Puts at (option_records codes 1 (words_from 0 words.now)) 143 buf.old result buf.new }
{
    let mut end = at;
    for code in 1..CODES + 1 {
        end = put_option(words, code, buf, end);
    }
    end
}

// The label's record, where its word is there.
fn put_label(words: &[u8], buf: &mut [u8], at: usize) -> usize
    requires { at + 15 ≤ length buf.old }
    ensures { Puts at (label_record_of words.now) 15 buf.old result buf.new }
{
    let w = find(words, 0, LABEL);
    if w.key == LABEL {
        let n = (w.end - w.from).min(12);
        let from = w.from;
        let end = from + n;
        put_bytes(buf, at, &[b'L', b'B', n as u8]);
        put_bytes(buf, at + 3, &words[from..end]);
        return at + 3 + n;
    }
    at
}

// The UUID's record, where one is wanted.
fn put_uuid(words: &[u8], buf: &mut [u8], at: usize) -> usize
    requires { at + 18 ≤ length buf.old }
    ensures { Puts at (uuid_record_of words.now) 18 buf.old result buf.new }
{
    let w = find(words, 0, UUID);
    if w.value == 1 {
        put_bytes(buf, at, b"ID");
        put_bytes(buf, at + 2, &pairs(words, w.from));
        return at + 18;
    }
    at
}

// All records, in a buffer that has room for the longest.
fn put_records(words: &[u8], buf: &mut [u8]) -> usize
    requires { longest ≤ length buf.old }
    ensures value { result ≡ length (words_request words.now) }
    ensures buf_after { buf.new ≡ patch 0 (words_request words.now) buf.old }
{
    put_device(words, buf);
    let options = put_options(words, buf, 18);
    let label = put_label(words, buf, options);
    put_uuid(words, buf, label)
}

// Writes the input records that the words ask for, each word ended by a zero byte: number 0 and the records' length; or 27 for a buffer
// of fewer than 194 bytes, or what is wrong with which word, and then nothing has changed.
pub fn make_records(words: &[u8], buf: &mut [u8]) -> Made
    ensures { Makes words.now buf.old result buf.new }
{
    if buf.len() < LONGEST {
        return Made {
            number: refusals::WRONG_LENGTH,
            index: 0,
            key: 0,
            length: 0,
        };
    }
    let v = verdict(words);
    if v.number != 0 {
        return Made {
            number: v.number as u32,
            index: v.index,
            key: v.key,
            length: 0,
        };
    }
    let length = put_records(words, buf);
    Made {
        number: 0,
        index: 0,
        key: 0,
        length,
    }
}
