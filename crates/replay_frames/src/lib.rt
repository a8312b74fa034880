// Cases and answers of the programs that answer cases of the oracle: through a pipe, where the oracle compares each answer with the Rust's,
// and in every run of the gate, from the file `stdin`. A case is a frame: its length (4 bytes, numbers are big-endian), then the form of
// the answer (1), the function (1), the length of its parameters (4), these, and the body, which are the lent bytes of a function that
// writes.
//
//     form 0    the answer is a frame: length (4), number (4), value (8), and the bytes
//     form 1    it is a line of text: number, value, and the checksum of the bytes where there are any
//     form 2    the same, and the body is one byte and a count (4): that many lent bytes of that value
//
// A parameter that lies behind the parameters' end is 0. A program ends at its input's end, and at a case that has no room.
#![tactic(auto)]

ghost use Rattle.std.specs.Prelude.{◌≡◌, ℕ, ◌+◌, ◌*◌, ◌<◌, take, drop, slice_index_or};
ghost use Rattle.std.specs.Fn.{FnReturnsAt};
ghost use Rattle.endian.specs.Answer.{room, valued};
ghost use Rattle.endian.specs.Bytes.{be_at};
ghost use Rattle.io.specs.Counts.{IsPrefixLen};

use program_calls::{STDIN_FILENO, STDOUT_FILENO};

// What stands before a case's parameters: its length, and its own first bytes.
const HEAD: usize = 10;

const OWN: usize = 6;

// The longest answer.
const MOST: usize = 1048576;

// The form of an answer, and of the body that is sent.
#[derive(Clone, Copy, PartialEq, Eq)]
pub enum Form {
    Whole,
    Line,
    Repeated,
}

// Any other number is a line's.
impl From<u8> for Form {
    fn from(number: u8) -> Form {
        match number {
            0 => Form::Whole,
            2 => Form::Repeated,
            _ => Form::Line,
        }
    }
}

// A case: the form of its answer, its function, and its parameters.
#[derive(Clone, Copy)]
pub struct Case<'p> {
    pub form: Form,
    pub function: u8,
    pub params: &'p [u8],
}

// The number of 8 bytes at `at`.
pub fn long(case: &[u8], at: usize) -> u64
    ensures { result ≡ valued (room (at + 8) case.now) (be_at 8 at case.now) }
{
    let r = endian::be64(case, at);
    r.value
}

// The number of 4 bytes.
pub fn word(case: &[u8], at: usize) -> u32
    ensures { result ≡ valued (room (at + 4) case.now) (be_at 4 at case.now) }
{
    let r = endian::be32(case, at);
    r.value
}

// The bytes from `at` on; none where the case ends before.
pub fn behind(case: &[u8], at: usize) -> &[u8]
    ensures { result.now ≡ drop at case.now }
{
    case.get(at..).unwrap_or(&[])
}

// The bytes of record `i`, where each before it has `size` bytes: as many of its own as the case has.
fn record(case: &[u8], size: usize, i: usize) -> &[u8]
    ensures { result.now ≡ take size (drop (i * size) case.now) }
{
    let rest = behind(case, i.saturating_mul(size));
    &rest[..rest.len().min(size)]
}

// The records that stand one behind the other, `size` bytes each, and behind them what is read of no bytes.
pub fn records<T, const N: usize, F: Fn(&[u8]) -> T>(case: &[u8], size: usize, read: F) -> [T; N]
    requires { F.IsAlwaysCallable read }
    ensures { (i : ℕ) (d : T) → i < N
        → FnReturnsAt F.Fn read (take size (drop (i * size) case.now)) (slice_index_or result i d) }
{
    std::array::from_fn(|i| read(record(case, size, i)))
}

// The first `n` bytes, filled; none where there is no room, or the input ends before.
fn filled(buf: &mut [u8], n: usize) -> Option<&mut [u8]> {
    let part = buf.get_mut(..n)?;
    if io::read_full(STDIN_FILENO, part) != n {
        return None;
    }
    Some(part)
}

// How many bytes the body of a repeating case lends, each of them made: as many as its first bytes say; none where there is no room.
fn repeated(body: &mut [u8]) -> usize {
    let n = word(body, 1) as usize;
    if n == 0 || body.len() < n {
        return 0;
    }
    let value = body[0];
    body[..n].fill(value);
    n
}

// Reads the next case into both buffers: it, and its body or the lent bytes; none where the input has no more, or a case no room.
pub fn next<'p, 'b>(params: &'p mut [u8], body: &'b mut [u8]) -> Option<(Case<'p>, &'b mut [u8])> {
    let mut head = [0u8; HEAD];
    if io::read_full(STDIN_FILENO, &mut head) != HEAD {
        return None;
    }
    let form = Form::from(head[4]);
    let taken = word(&head, OWN) as usize;
    let sent = (word(&head, 0) as usize).checked_sub(taken + OWN)?;
    let params = filled(params, taken)?;
    filled(body, sent)?;
    let lent = if form == Form::Repeated {
        repeated(body)
    } else {
        sent
    };
    let case = Case {
        form,
        function: head[5],
        params,
    };
    Some((case, body.get_mut(..lent)?))
}

fn frame(number: u32, value: u64, bytes: &[u8]) -> bool {
    let mut head = [0u8; 16];
    if MOST < bytes.len() {
        return false;
    }
    endian::put32(&mut head, 0, 12 + bytes.len() as u32);
    endian::put32(&mut head, 4, number);
    endian::put64(&mut head, 8, value);
    io::write_all(STDOUT_FILENO, &head);
    io::write_all(STDOUT_FILENO, bytes)
}

fn line(number: u32, value: u64, bytes: &[u8]) -> bool {
    io::print_decimal(STDOUT_FILENO, number as u64);
    io::write_all(STDOUT_FILENO, b" ");
    io::print_decimal(STDOUT_FILENO, value);
    if !bytes.is_empty() {
        io::write_all(STDOUT_FILENO, b" ");
        io::print_hex(STDOUT_FILENO, crc::crc32c(bytes) as u64, 8);
    }
    io::write_all(STDOUT_FILENO, b"\n")
}

// Writes an answer in the form that its case asks for, or that a number names.
pub fn say<F: Into<Form>>(form: F, number: u32, value: u64, bytes: &[u8]) -> bool {
    match form.into() {
        Form::Whole => frame(number, value, bytes),
        Form::Line | Form::Repeated => line(number, value, bytes),
    }
}
