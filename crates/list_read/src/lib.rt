// The written records, read back: the head of each, where its write ends, and where the list ends. A list is read in parts, so an answer
// also says that more bytes are needed.
#![tactic(auto)]

ghost use Rattle.std.specs.Prelude.{◌≡◌};
ghost use Rattle.list_read.specs.Records.{head_cut, head_refused, write_head, decode_def, within_def};
ghost use Rattle.list_read.specs.Flushes.{next_def, ended_def};

use list_records::{BLOCK_MARK, FLUSH_MARK, HEAD_SIZE, MARK_SIZE, ZEROS_MARK};

// What a record asks for; none is known yet where more bytes are needed.
pub const MORE: u8 = 0;

pub const FLUSH: u8 = 1;

pub const ZEROS: u8 = 2;

pub const BYTES: u8 = 3;

// The end of the largest file or device: no offset is above it.
const LARGEST: u64 = 0x7fff_ffff_ffff_ffff;

// How many flushes a list has.
const FLUSHES: u8 = 2;

// A record's head: what it asks for, where on the device and how many bytes, and the head's own size. `number` is 0, or 28 beside zeros.
#[derive(Clone, Copy)]
pub struct Decoded {
    pub number: u32,
    pub kind: u8,
    pub at: u64,
    pub len: u64,
    pub size: usize,
}

// How many flushes of a list are past. `number` is 0, or 28 beside 0.
#[derive(Clone, Copy)]
pub struct Passed {
    pub number: u32,
    pub flushes: u8,
}

fn malformed() -> Decoded
    ensures { result ≡ head_refused }
{
    Decoded {
        number: refusals::MALFORMED,
        kind: MORE,
        at: 0,
        len: 0,
        size: 0,
    }
}

// Too few bytes for a head: the list is cut if it ends with them.
fn too_few(last: bool) -> Decoded
    ensures { result ≡ head_cut last }
{
    if last {
        return malformed();
    }
    Decoded {
        number: 0,
        kind: MORE,
        at: 0,
        len: 0,
        size: 0,
    }
}

// The head of a write.
fn write_head(bytes: &[u8], last: bool, kind: u8) -> Decoded
    ensures { result ≡ write_head last kind bytes.now }
{
    if bytes.len() < HEAD_SIZE {
        return too_few(last);
    }
    let at = endian::be64(bytes, 2);
    let len = endian::be64(bytes, 10);
    Decoded {
        number: 0,
        kind,
        at: at.value,
        len: len.value,
        size: HEAD_SIZE,
    }
}

// The head of the record that the bytes begin with; `last` where the list ends with them.
pub fn decode(bytes: &[u8], last: bool) -> Decoded
    ensures { result ≡ decode_def last bytes.now }
{
    if bytes.len() < MARK_SIZE {
        return too_few(last);
    }
    let mark = endian::be16(bytes, 0);
    if mark.value == FLUSH_MARK {
        return Decoded {
            number: 0,
            kind: FLUSH,
            at: 0,
            len: 0,
            size: MARK_SIZE,
        };
    }
    if mark.value == ZEROS_MARK {
        return write_head(bytes, last, ZEROS);
    }
    if mark.value == BLOCK_MARK {
        return write_head(bytes, last, BYTES);
    }
    malformed()
}

// Whether a write of `len` bytes at the offset `at` ends where a file can.
pub fn within(at: u64, len: u64) -> bool
    ensures { result ≡ within_def at len }
{
    if LARGEST < at {
        return false;
    }
    if LARGEST - at < len {
        return false;
    }
    true
}

// One more record of a list of which `flushes` are past. None may stand behind the last flush.
pub fn next(flushes: u8, kind: u8) -> Passed
    ensures { result ≡ next_def flushes kind }
{
    if flushes < FLUSHES {
        if kind == FLUSH {
            return Passed {
                number: 0,
                flushes: flushes + 1,
            };
        }
        return Passed { number: 0, flushes };
    }
    Passed {
        number: refusals::MALFORMED,
        flushes: 0,
    }
}

// The end of the input, where `flushes` are past: 28 for a list that is cut.
pub fn ended(flushes: u8) -> u32
    ensures { result ≡ ended_def flushes }
{
    if flushes == FLUSHES {
        return 0;
    }
    refusals::MALFORMED
}
