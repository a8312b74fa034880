// Reads input records from standard input and writes the list of written records of the run that they ask for to standard output, or
// prints `refused N`. `list_send` says what comes next; here buffers are only lent and written.
// Give each disk its UUID in an `ID` record: without one it is zeros, and Linux doesn't mount such a disk.
#![tactic(auto)]

ghost use Rattle.std.specs.Prelude.{◌≡◌, IfOk, length};
ghost use Rattle.list_send.specs.Sending.{sent_def, all_sent};

use list_send::{Sending, begin, left_of, longest, number_of, send};
use program_calls::{STDERR_FILENO, STDOUT_FILENO, say_failed, word_count};
use std::io::{Error, Result, Write};

// Bytes of ten blocks of 4096 bytes, each with the 18 bytes before it: enough for the pieces and parts of most disks.
const FEW: usize = 41140;

fn few_bytes() -> [u8; 41140]
    ensures { 41140 ≡ length result }
{
    [0; 41140]
}

// Enough for the longest piece: a head of 10 blocks of 16,384 bytes, each with the 18 bytes before it.
fn most_bytes() -> [u8; 164020]
    ensures { 164020 ≡ length result }
{
    [0; 164020]
}

// Writes the first bytes.
fn flush<W: Write>(out: &mut W, buf: &[u8], end: usize) -> Result<()> {
    match buf.get(..end) {
        Some(first) => out.write_all(first),
        None => Err(Error::other("the bytes end behind their buffer")),
    }
}

// Takes the next piece and writes it; what is left to send is in `s` then, on an error too. Where the piece has no room, or a write fails,
// nothing more is written.
fn take_turn<W: Write>(out: &mut W, s: &mut Sending, work: &mut [u8], buf: &mut [u8]) -> Result<()>
    ensures { s.new ≡ (sent_def s.old (length work.old) (length buf.old)).sending }
{
    let sent = send(*s, work, buf);
    *s = sent.sending;
    if sent.number != 0 {
        return Err(Error::other("the next piece has no room"));
    }
    flush(out, buf, sent.length)
}

// Writes all pieces. Where no write fails, as many turns were taken as there are pieces.
fn write_list<W: Write>(
    out: &mut W,
    first: Sending,
    work: &mut [u8],
    buf: &mut [u8],
) -> Result<Sending>
    ensures { IfOk result (λ left. left ≡ all_sent first work.old buf.old) }
{
    let mut s = first;
    for taken in 0..left_of(first) {
        take_turn(out, &mut s, work, buf)?;
    }
    Ok(s)
}

fn write_few<W: Write>(out: &mut W, s: Sending) -> Result<()> {
    let mut work = few_bytes();
    let mut buf = few_bytes();
    write_list(out, s, &mut work, &mut buf)?;
    Ok(())
}

fn write_most<W: Write>(out: &mut W, s: Sending) -> Result<()> {
    let mut work = most_bytes();
    let mut buf = most_bytes();
    write_list(out, s, &mut work, &mut buf)?;
    Ok(())
}

// The number's line, and its sentence on standard error.
fn print_refused<W: Write>(out: &mut W, number: u32) -> Result<()> {
    let mut line = [0u8; 32];
    let w = table_lines::put_refused(number as u64, &mut line, 0);
    refusal_print::say_refusal(number);
    flush(out, &line, w.end)
}

// Writes what the input asks for; an error where a write failed.
fn answer<W: Write>(out: &mut W, input: &[u8]) -> Result<()> {
    let s = begin(input);
    let number = number_of(s);
    if number != 0 {
        return print_refused(out, number);
    }
    if longest(s) <= FEW as u64 {
        return write_few(out, s);
    }
    write_most(out, s)
}

// What to hand in.
fn usage(fd: i32) {
    io::write_all(fd, b"usage: writelist < INPUT > LIST\n");
    io::write_all(
        fd,
        b"Give each disk its UUID by an ID record: without one it is zeros, and Linux doesn't mount such a disk.\n",
    );
}

// Whether the first argument is this word.
fn is_word(rt: &HostRuntime, word: &[u8]) -> bool {
    program_calls::is_word(rt, 1, word)
}

fn main(rt: HostRuntime) {
    if is_word(&rt, b"--help") {
        usage(STDOUT_FILENO);
        return;
    }
    if word_count(&rt) != 1 {
        usage(STDERR_FILENO);
        return;
    }
    let mut input = request::input_buffer();
    let i = input_bytes::read_input(&mut rt.stdin(), &mut input);
    if i.failed.is_some() {
        say_failed(b"standard input", i.failed);
        return;
    }
    let n = i.n;
    if let Err(error) = answer(&mut rt.stdout(), &input[..n]) {
        say_failed(b"standard output", Some(error));
    }
}
