// Sending the list of the run that input records ask for, as a state by value: a program lends buffers, writes what it is handed, and
// counts nothing itself. Each turn puts the next piece of the list at the start of a lent buffer.
#![tactic(auto)]

ghost use Rattle.std.specs.Prelude.{◌≡◌};
ghost use Rattle.list_send.specs.Sending.{sending_begun, next_piece, sending_wanted, longest_piece, unsent, sending_stepped, Turn};

use arith::numbers::max_u64;
use list_lengths::{Counted, piece_count, piece_length};
use list_write::write_piece;
use refusals::{NO_PLACE, WRONG_LENGTH};
use request::parse;
use run::{Run, run_of};

// The run whose list is sent, its device's size, how many pieces the list has, and how many of them are still to come. Only `begin` and
// `send` make one.
#[derive(Clone, Copy)]
pub struct Sending {
    run: Run,
    device: u64,
    count: u64,
    left: u64,
}

// How many bytes at the start of the buffer are the piece's, and what is left to send; or a refusal's number, and what was left before.
#[derive(Clone, Copy)]
pub struct Sent {
    pub number: u32,
    pub length: usize,
    pub sending: Sending,
}

// The list of what the input records ask for, before its first piece. Of a refused run nothing is sent.
pub fn begin(input: &[u8]) -> Sending
    ensures { result ≡ sending_begun input.now }
{
    let asked = parse(input);
    let device = asked.device;
    let run = run_of(asked);
    if run.number != 0 {
        return Sending {
            run,
            device,
            count: 0,
            left: 0,
        };
    }
    let count = piece_count(run);
    Sending {
        run,
        device,
        count: count.value,
        left: count.value,
    }
}

// The piece that comes next.
fn next_of(s: Sending) -> u64
    ensures { result ≡ next_piece s }
{
    s.count.saturating_sub(s.left)
}

// 0, or why nothing is sent: 28, 1 to 26.
pub fn number_of(s: Sending) -> u32
    ensures { result ≡ s.run.number }
{
    let run = s.run;
    run.number
}

// How many pieces are still to come.
pub fn left_of(s: Sending) -> u64
    ensures { result ≡ s.left }
{
    s.left
}

// How many bytes the next piece has: the run's number, 29 where all are sent.
fn wants(s: Sending) -> Counted
    ensures { result ≡ sending_wanted s }
{
    let run = s.run;
    if run.number != 0 {
        return Counted {
            number: run.number,
            value: 0,
        };
    }
    if s.left == 0 {
        return Counted {
            number: NO_PLACE,
            value: 0,
        };
    }
    piece_length(run, next_of(s))
}

// Bytes that are enough for every piece, and for every part that a piece is split from: those of the first head or of the root chunk, which
// is the piece before the last.
pub fn longest(s: Sending) -> u64
    ensures { result ≡ longest_piece s }
{
    let head = piece_length(s.run, 1);
    let root = piece_length(s.run, s.count.saturating_sub(2));
    max_u64(head.value, root.value)
}

// With one piece fewer to come.
fn stepped_on(s: Sending) -> Sending
    ensures { result ≡ sending_stepped s }
{
    let run = s.run;
    Sending {
        run,
        device: s.device,
        count: s.count,
        left: s.left.saturating_sub(1),
    }
}

// Refused, and everything as it was.
fn unsent_by(s: Sending, number: u32) -> Sent
    ensures { result ≡ unsent s number }
{
    Sent {
        number,
        length: 0,
        sending: s,
    }
}

// Puts the next piece into the first bytes of the buffer. The part that it is split from is made in the first bytes of `work`. The run's
// number, 29 where all are sent, 27 where a buffer is too short.
pub fn send(s: Sending, work: &mut [u8], buf: &mut [u8]) -> Sent
    ensures { Turn s result work.old buf.old work.new buf.new }
{
    let wanted = wants(s);
    if wanted.number != 0 {
        return unsent_by(s, wanted.number);
    }
    let n = wanted.value as usize;
    if buf.len() < n {
        return unsent_by(s, WRONG_LENGTH);
    }
    let number = write_piece(s.run, s.device, next_of(s), work, &mut buf[0..0 + n]);
    if number != 0 {
        return unsent_by(s, number);
    }
    Sent {
        number: 0,
        length: n,
        sending: stepped_on(s),
    }
}
