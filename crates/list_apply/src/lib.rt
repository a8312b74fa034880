// A list of written records, taken up piece by piece, as a state by value: it says how many bytes it wants next, is fed with them, and says
// what is to be done: a flush, zeros, or the bytes just fed. The first record that can't be applied ends it. Zeros of the first record wait
// until the next record's head is known to be in order, and then a flush follows them: a list of which one of the two doesn't fit changes
// nothing.
#![tactic(auto)]

ghost use Rattle.std.specs.Prelude.{◌≡◌};
ghost use Rattle.list_apply.specs.Applying.{applying_begun, head_next, head_bytes_wanted, kept_of, piece_length, applying_wanted, idle_step, stopped_by, marked_step, input_ended, following_of, taken_up, waits_def, held_back, released, accepted_by, put_piece, in_limit, fed_record, fed_decoded, applying_fed_head, fed_bytes, applying_fed};

use arith::numbers::min_u64;
use list_read::{FLUSH, MORE, ZEROS, decode, ended, next, within};
use list_records::{HEAD_SIZE, MARK_SIZE};

// How it stands with a list: it goes on, it ended as a list does, or why it can't be applied further.
pub const GOES_ON: u8 = 0;

pub const ENDED: u8 = 1;

pub const CUT: u8 = 2; // it ended before its second flush

pub const MALFORMED: u8 = 3;

pub const BEHIND: u8 = 4; // a record behind the second flush

pub const TOO_FAR: u8 = 5; // a record that ends behind the limit, or where no file can

// What is to be done: nothing, or what a record asks for (FLUSH, ZEROS, BYTES of list_read), or all zeros of the first record and then a
// flush.
pub const NOTHING: u8 = 0;

pub const FIRST: u8 = 4;

// How it stands with the first record: it is to come, it is zeros that wait for the next head, or it is past.
const AHEAD: u8 = 0;

const HELD: u8 = 1;

const PAST: u8 = 2;

// The record in hand, counted from 1; how many flushes are past; whether its mark is here, but not all of its head; and what is left of it
// behind its head: where the next byte goes, and how many are to come. No record may end behind the limit.
#[derive(Clone, Copy)]
pub struct Applying {
    stop: u8,
    marked: bool,
    ordinal: u64,
    flushes: u8,
    kind: u8,
    at: u64,
    left: u64,
    limit: u64,
    first: u8,
}

// What is to be done, at which offset and with how many bytes, and the state behind it.
#[derive(Clone, Copy)]
pub struct Step {
    pub applying: Applying,
    pub action: u8,
    pub at: u64,
    pub len: usize,
}

// Before the first record. What is written may reach to the limit: the end of the file or device.
pub fn begin(limit: u64) -> Applying
    ensures { result ≡ applying_begun limit }
{
    Applying {
        stop: GOES_ON,
        marked: false,
        ordinal: 1,
        flushes: 0,
        kind: MORE,
        at: 0,
        left: 0,
        limit,
        first: AHEAD,
    }
}

// How it stands with the list.
pub fn stop_of(a: Applying) -> u8
    ensures { result ≡ a.stop }
{
    a.stop
}

// The record in hand.
pub fn record_of(a: Applying) -> u64
    ensures { result ≡ a.ordinal }
{
    a.ordinal
}

// The bytes of a head that are read at first, and where its mark is here.
fn head_size(marked: bool) -> usize
    ensures { result ≡ head_bytes_wanted marked }
{
    if marked {
        return HEAD_SIZE;
    }
    MARK_SIZE
}

// How many of the bytes that are wanted were fed before and are fed again: the mark, where the rest of a head is wanted.
pub fn kept_of(a: Applying) -> usize
    ensures { result ≡ kept_of a }
{
    if a.marked {
        return MARK_SIZE;
    }
    0
}

// As much of what is left of a record as a buffer of so many bytes holds.
fn piece_of(a: Applying, size: usize) -> usize
    ensures { result ≡ piece_length a size }
{
    min_u64(a.left, size as u64) as usize
}

// Whether a head is next: behind a whole record, and while the first one waits.
fn head_next(a: Applying) -> bool
    ensures { result ≡ head_next a }
{
    if a.first == HELD {
        return true;
    }
    a.left == 0
}

// How many bytes it wants, in a buffer of so many: a mark, a head, or a piece of a block.
pub fn wants(a: Applying, size: usize) -> usize
    ensures { result ≡ applying_wanted a size }
{
    if a.stop != GOES_ON {
        return 0;
    }
    if head_next(a) {
        return head_size(a.marked);
    }
    if a.kind == ZEROS {
        return 0;
    }
    piece_of(a, size)
}

// Nothing is to be done, and the state is this.
fn idle_step(a: Applying) -> Step
    ensures { result ≡ idle_step a }
{
    Step {
        applying: a,
        action: NOTHING,
        at: 0,
        len: 0,
    }
}

// It stops here.
fn stopped_by(a: Applying, stop: u8) -> Step
    ensures { result ≡ stopped_by a stop }
{
    idle_step(Applying {
        stop,
        marked: a.marked,
        ordinal: a.ordinal,
        flushes: a.flushes,
        kind: a.kind,
        at: a.at,
        left: a.left,
        limit: a.limit,
        first: a.first,
    })
}

// The mark of the next record is here, and the rest of its head is wanted.
fn marked_step(a: Applying) -> Step
    ensures { result ≡ marked_step a }
{
    idle_step(Applying {
        stop: a.stop,
        marked: true,
        ordinal: a.ordinal,
        flushes: a.flushes,
        kind: a.kind,
        at: a.at,
        left: a.left,
        limit: a.limit,
        first: a.first,
    })
}

// The input ends before a record.
fn ended_by(a: Applying) -> Step
    ensures { result ≡ input_ended a }
{
    if ended(a.flushes) == 0 {
        return stopped_by(a, ENDED);
    }
    stopped_by(a, CUT)
}

// The record in hand once so many of its bytes are left: the next one where none is. No list has so many that their count wraps.
fn following_of(ordinal: u64, left: u64) -> u64
    ensures { result ≡ following_of ordinal left }
{
    if left == 0 {
        return std::num::wrapping_add_u64(ordinal, 1);
    }
    ordinal
}

// The head of a record: its bytes or zeros follow, or a flush is to be done.
fn taken_up(a: Applying, flushes: u8, kind: u8, at: u64, len: u64) -> Step
    ensures { result ≡ taken_up a flushes kind at len }
{
    let mut s = idle_step(Applying {
        stop: GOES_ON,
        marked: false,
        ordinal: following_of(a.ordinal, len),
        flushes,
        kind,
        at,
        left: len,
        limit: a.limit,
        first: PAST,
    });
    if kind == FLUSH {
        s.action = FLUSH;
    }
    s
}

// Whether a record waits: zeros, as the first.
fn waits(first: u8, kind: u8) -> bool
    ensures { result ≡ waits_def first kind }
{
    if first == AHEAD {
        return kind == ZEROS;
    }
    false
}

// The head of a first record of zeros: nothing is done yet, and the next head is wanted.
fn held_back(a: Applying, at: u64, len: u64) -> Step
    ensures { result ≡ held_back a at len }
{
    idle_step(Applying {
        stop: GOES_ON,
        marked: false,
        ordinal: following_of(a.ordinal, 0),
        flushes: a.flushes,
        kind: ZEROS,
        at,
        left: len,
        limit: a.limit,
        first: HELD,
    })
}

// The head of the next record: the zeros that waited are done and flushed, and where it is a flush, that was it.
fn released(a: Applying, flushes: u8, kind: u8, at: u64, len: u64) -> Step
    ensures { result ≡ released a flushes kind at len }
{
    let ordinal = following_of(a.ordinal, len);
    Step {
        applying: Applying {
            stop: GOES_ON,
            marked: false,
            ordinal,
            flushes,
            kind,
            at,
            left: len,
            limit: a.limit,
            first: PAST,
        },
        action: FIRST,
        at: a.at,
        len: a.left as usize,
    }
}

// The head of a record that is in order.
fn accepted_by(a: Applying, flushes: u8, kind: u8, at: u64, len: u64) -> Step
    ensures { result ≡ accepted_by a flushes kind at len }
{
    if a.first == HELD {
        return released(a, flushes, kind, at, len);
    }
    if waits(a.first, kind) {
        return held_back(a, at, len);
    }
    taken_up(a, flushes, kind, at, len)
}

// The next piece of the record in hand, n bytes.
fn put_piece(a: Applying, n: usize) -> Step
    ensures { result ≡ put_piece a n }
{
    let left = a.left.saturating_sub(n as u64);
    Step {
        applying: Applying {
            stop: GOES_ON,
            marked: false,
            ordinal: following_of(a.ordinal, left),
            flushes: a.flushes,
            kind: a.kind,
            at: std::num::wrapping_add_u64(a.at, n as u64),
            left,
            limit: a.limit,
            first: a.first,
        },
        action: a.kind,
        at: a.at,
        len: n,
    }
}

// Whether a write of `len` bytes at the offset `at` ends no later than the limit, and where a file can.
fn in_limit(limit: u64, at: u64, len: u64) -> bool
    ensures { result ≡ in_limit limit at len }
{
    if limit < at {
        return false;
    }
    if limit - at < len {
        return false;
    }
    within(at, len)
}

// A record with this head. It is refused before anything of it is applied.
fn feed_record(a: Applying, kind: u8, at: u64, len: u64) -> Step
    ensures { result ≡ fed_record a kind at len }
{
    let passed = next(a.flushes, kind);
    if passed.number != 0 {
        return stopped_by(a, BEHIND);
    }
    if in_limit(a.limit, at, len) {
        return accepted_by(a, passed.flushes, kind, at, len);
    }
    stopped_by(a, TOO_FAR)
}

// A head, or a mark, or what the input ends with in their place.
fn feed_decoded(a: Applying, bytes: &[u8]) -> Step
    ensures { result ≡ fed_decoded a bytes.now }
{
    let d = decode(bytes, bytes.len() < head_size(a.marked));
    if d.number != 0 {
        return stopped_by(a, MALFORMED);
    }
    if d.kind == MORE {
        return marked_step(a);
    }
    feed_record(a, d.kind, d.at, d.len)
}

// The same, or the end of the input.
fn feed_head(a: Applying, bytes: &[u8]) -> Step
    ensures { result ≡ applying_fed_head a bytes.now }
{
    if a.marked {
        return feed_decoded(a, bytes);
    }
    if bytes.len() == 0 {
        return ended_by(a);
    }
    feed_decoded(a, bytes)
}

// A piece of a block. Where the input ends in it, nothing of the piece is applied.
fn feed_bytes(a: Applying, bytes: &[u8], size: usize) -> Step
    ensures { result ≡ fed_bytes a bytes.now size }
{
    let n = piece_of(a, size);
    if bytes.len() < n {
        return stopped_by(a, MALFORMED);
    }
    put_piece(a, n)
}

// Takes the bytes that were wanted, in a buffer of `size`; fewer where the input ended. What is to be done with BYTES is to write the first
// `len` of them.
pub fn feed(a: Applying, bytes: &[u8], size: usize) -> Step
    ensures { result ≡ applying_fed a bytes.now size }
{
    if a.stop != GOES_ON {
        return idle_step(a);
    }
    if head_next(a) {
        return feed_head(a, bytes);
    }
    if a.kind == ZEROS {
        return put_piece(a, piece_of(a, size));
    }
    feed_bytes(a, bytes, size)
}
