// Applies a list of written records, read from standard input, in order to an existing file or device. It makes no file and shortens none,
// and extends a plain file only where it is told to: a record that ends behind the file or device stops it, and where that is one of a
// run's first two, nothing was changed. Where it is told to, it also leaves alone what isn't empty. `list_apply` says what is to be read
// next and what is to be done with it; here bytes are only moved.
#![tactic(auto)]

mod clock; // a line of progress
mod ends; // a device that is empty
mod input; // reading
mod output; // writing

ghost use Rattle.std.specs.Prelude.{◌≡◌, ◌≤◌, length};
ghost use Rattle.list_apply.specs.Applying.{applying_begun};
ghost use Rattle.list_apply_laws.specs.Turns.{Fed};

use list_apply::{
    Applying, BEHIND, CUT, ENDED, FIRST, GOES_ON, MALFORMED, Step, TOO_FAR, begin, feed, kept_of,
    record_of, stop_of, wants,
};
use list_read::{BYTES, FLUSH, ZEROS};
use list_sector::{below_logical, enough};
use program_calls::{
    STDERR_FILENO, STDOUT_FILENO, fill_error, open_update, say_failed, take_word, word_count,
};
use std::env::Env;
use std::fs::File;
use std::io::{Error, Read, Seek, SeekFrom, Write};

// What a list is applied to: what is there, a plain file that may become longer, what holds nothing at its ends, or a plain file that is
// one hole.
#[derive(Clone, Copy, PartialEq, Eq)]
enum Onto {
    Anything,
    Extended,
    Blank,
    Hole,
}

// The end of the largest file.
const LARGEST: u64 = 0x7fff_ffff_ffff_ffff;

// The call that failed, and why, where the system said so.
#[derive(Clone, Copy)]
pub(crate) enum Failed {
    Read(Error),
    Write(Option<Error>),
    NothingTaken, // a write that took no byte, and named no error
    Flush(Error),
}

// The list so far, which call failed, the record in hand or at which it failed, and, behind zeros that stood in the file already, where
// they end.
#[derive(Clone, Copy)]
struct Progress {
    applying: Applying,
    failed: Option<Failed>,
    record: u64,
    until: u64,
}

fn goes_on(p: Progress) -> bool {
    p.failed.is_none() && stop_of(p.applying) == GOES_ON
}

// Zeros, and then a flush.
fn put_and_flush(
    file: &File,
    zeros: &[u8],
    len: usize,
    at: u64,
    fills: bool,
) -> Result<(), Failed> {
    output::put_zeros(file, zeros, len, at, fills)?;
    output::flush(file)
}

// What a step asks for: the first record's zeros and a flush, zeros, the bytes that were read, or a flush. The answer is where zeros end
// that stood in the file already, else 0.
fn perform(
    file: &File,
    fills: bool,
    s: Step,
    until: u64,
    zeros: &[u8],
    buf: &[u8],
) -> Result<u64, Failed> {
    if s.action == ZEROS {
        return output::put_blank(file, zeros, s.len, s.at, fills, until);
    }
    if s.action == FIRST {
        put_and_flush(file, zeros, s.len, s.at, fills)?;
    } else if s.action == FLUSH {
        output::flush(file)?;
    } else if s.action == BYTES {
        output::put_bytes(file, buf, s.len, s.at)?;
    }
    Ok(0)
}

// The record that a step is for.
fn record_for(a: Applying, action: u8) -> u64 {
    if action == FIRST {
        return 1;
    }
    record_of(a)
}

// A call failed, at this record: the list stays where it was.
fn halted(a: Applying, failed: Failed, record: u64) -> Progress
    ensures { result.applying ≡ a }
{
    Progress {
        applying: a,
        failed: Some(failed),
        record,
        until: 0,
    }
}

// Feeds the first n bytes of the buffer, and does what they ask for.
fn feed_first(
    file: &File,
    fills: bool,
    a: Applying,
    n: usize,
    until: u64,
    zeros: &[u8],
    buf: &[u8],
) -> Progress
    requires { n ≤ length buf.now }
    ensures { Fed (length buf.now) a result.applying }
{
    let s = feed(a, &buf[..n], buf.len());
    match perform(file, fills, s, until, zeros, buf) {
        Ok(end) => {
            let next = s.applying;
            Progress {
                applying: next,
                failed: None,
                record: record_of(next),
                until: end,
            }
        }
        Err(failed) => halted(a, failed, record_for(a, s.action)),
    }
}

// Reads what is wanted, behind what is kept of it, and feeds it.
fn take_turn<R: Read>(
    list: &mut R,
    file: &File,
    fills: bool,
    a: Applying,
    until: u64,
    zeros: &[u8],
    buf: &mut [u8],
) -> Progress
    ensures { Fed (length buf.old) a result.applying }
{
    match input::fill_wanted(list, kept_of(a), wants(a, buf.len()), buf) {
        Ok(n) => feed_first(file, fills, a, n, until, zeros, buf),
        Err(error) => halted(a, Failed::Read(error), record_of(a)),
    }
}

// All records, as far as the limit: those in the bytes that were read ahead, and the rest. A proved loop has to end, so its turns are as
// many as no list uses up.
fn apply(
    rt: &HostRuntime,
    file: &File,
    fills: bool,
    limit: u64,
    ahead: &[u8],
    zeros: &[u8],
    buf: &mut [u8],
) -> Progress
    ensures { Fed (length buf.old) (applying_begun limit) result.applying }
{
    let mut p = Progress {
        applying: begin(limit),
        failed: None,
        record: 1,
        until: 0,
    };
    let mut list = ahead.chain(rt.stdin());
    let mut clock = clock::start(rt);
    for _ in 0..u64::MAX {
        if !goes_on(p) {
            break;
        }
        p = take_turn(&mut list, file, fills, p.applying, p.until, zeros, buf);
        clock = clock.show(rt, p.record);
    }
    clock.end();
    p
}

// The call that failed and its error.
fn name_error(failed: Failed) {
    match failed {
        Failed::Read(error) => say_failed(b"standard input", Some(error)),
        Failed::Write(error) => say_failed(b"write", error),
        Failed::NothingTaken => {}
        Failed::Flush(error) => say_failed(b"flush", Some(error)),
    }
}

fn print_record(record: u64) {
    io::write_all(STDERR_FILENO, b"record ");
    io::print_decimal(STDERR_FILENO, record);
}

// A call that failed, on standard error: at which record.
fn report_failed(failed: Failed, record: u64) {
    name_error(failed);
    print_record(record);
    if let Failed::NothingTaken = failed {
        io::write_all(STDERR_FILENO, b": no room\n");
        return;
    }
    io::write_all(STDERR_FILENO, b": failed\n");
}

// A record that can't be applied, on standard error: which, and why.
fn report_stopped(stop: u8, record: u64) {
    print_record(record);
    match stop {
        MALFORMED => {
            io::write_all(STDERR_FILENO, b": malformed or cut\n");
        }
        BEHIND => {
            io::write_all(
                STDERR_FILENO,
                b": malformed: the second flush ends a list\n",
            );
        }
        TOO_FAR => {
            io::write_all(
                STDERR_FILENO,
                b": ends behind the file or device, and isn't applied (--extend extends a plain file)\n",
            );
        }
        _ => {
            io::write_all(STDERR_FILENO, b": failed\n");
        }
    }
}

// A line that ends with the number of the last record that was applied.
fn print_last<W: Write>(out: &mut W, words: &[u8], record: u64) -> std::io::Result<()> {
    let mut number = [0u8; 20];
    let n = io::decimal(record.wrapping_sub(1), &mut number);
    out.write_all(words)?;
    out.write_all(&number[..n])?;
    out.write_all(b"\n")
}

// The list's last word: how many records it had, on standard output, once all are applied.
fn finish(rt: &HostRuntime, p: Progress) {
    let record = p.record;
    if let Some(failed) = p.failed {
        report_failed(failed, record);
        return;
    }
    let stop = stop_of(p.applying);
    if stop == CUT {
        let _ = print_last(&mut rt.stderr(), b"list cut after record ", record);
        return;
    }
    if stop != ENDED {
        report_stopped(stop, record);
        return;
    }
    if let Err(error) = print_last(&mut rt.stdout(), b"records applied: ", record) {
        say_failed(b"standard output", Some(error));
    }
}

fn usage(fd: i32) {
    io::write_all(
        fd,
        b"usage: applylist [--extend | --empty | --hole] PATH < LIST\n",
    );
    io::write_all(
        fd,
        b"Applies a list to a file or device that is there. --extend: a plain file may become longer. Nothing is applied, and that is said on\n",
    );
    io::write_all(
        fd,
        b"standard output, with --empty where a byte of the first or last 128 KiB isn't zero, with --hole where a file isn't one hole.\n",
    );
}

// Opens the file at a path, or says why not; it has to be there.
fn open_path(rt: &HostRuntime, path: &[u8]) -> Option<File> {
    match open_update(rt, path) {
        Ok(file) => Some(file),
        Err(error) => {
            io::write_all(STDERR_FILENO, b"open: ");
            say_failed(path, Some(error));
            None
        }
    }
}

// Opens the file that argument i names.
fn open(rt: &HostRuntime, i: usize) -> Option<File> {
    let mut path = io::buffer();
    match rt.arg(i, &mut path) {
        Ok(n) => open_path(rt, &path[..n]),
        Err(error) => {
            say_failed(b"path", Some(fill_error(error)));
            None
        }
    }
}

// Where the last byte may end: the end of the file or device, or of the largest file where it may be extended.
fn limit_of(mut file: &File, onto: Onto) -> std::io::Result<u64> {
    if onto == Onto::Extended {
        return Ok(LARGEST);
    }
    file.seek(SeekFrom::End(0))
}

// As many bytes as one write has at most.
fn mebibyte() -> [u8; 1048576]
    ensures { 1048576 ≡ length result }
{
    [0; 1048576]
}

// Applies the list, of which some bytes were read ahead, to an open file or device.
fn apply_from(rt: &HostRuntime, file: &File, fills: bool, limit: u64, ahead: &[u8]) {
    let zeros = mebibyte();
    let mut buf = mebibyte();
    let p = apply(rt, file, fills, limit, ahead, &zeros, &mut buf);
    finish(rt, p);
}

// The list's first bytes are held back until they say that its sectors aren't smaller than the device's. A device has no holes: zeros are
// always written.
fn apply_to_device(rt: &HostRuntime, file: &File, limit: u64, path: &[u8]) {
    let sizes = device_sizes::sizes_of(rt, file);
    if sizes.failed != 0 {
        io::write_all(STDERR_FILENO, path);
        io::write_all(STDERR_FILENO, b": its sectors can't be read\n");
        return;
    }
    let mut ahead = io::large_buffer();
    let n = match input::fill_wanted(&mut rt.stdin(), 0, enough(), &mut ahead) {
        Ok(n) => n,
        Err(error) => return say_failed(b"standard input", Some(error)),
    };
    if below_logical(&ahead[..n], sizes.logical) {
        io::write_all(
            STDERR_FILENO,
            b"the list isn't for sectors as large as the device's, and isn't applied\n",
        );
        return;
    }
    apply_from(rt, file, true, limit, &ahead[..n]);
}

// Why nothing is applied, where the file or device isn't as empty as it has to be.
fn why_not(file: &File, size: u64, onto: Onto) -> Option<&'static [u8]> {
    match onto {
        Onto::Blank if !ends::are_blank(file, size) => Some(
            b"nothing applied: a byte of the first or last 128 KiB isn't zero\n",
        ),
        Onto::Hole if !ends::is_hole(file, size) => Some(b"nothing applied: not one hole\n"),
        _ => None,
    }
}

// Applies the list to an open file or device, whose last byte may end at `end`.
fn apply_below(rt: &HostRuntime, file: &File, onto: Onto, end: u64, path: &[u8]) {
    if let Some(why) = why_not(file, end, onto) {
        io::write_all(STDOUT_FILENO, why);
        return;
    }
    if device_sizes::is_device(file) {
        apply_to_device(rt, file, end, path);
        return;
    }
    apply_from(rt, file, onto == Onto::Extended, end, &[]);
}

// Applies the list to an open file or device.
fn apply_open(rt: &HostRuntime, file: &File, onto: Onto, path: &[u8]) {
    match limit_of(file, onto) {
        Ok(end) => apply_below(rt, file, onto, end, path),
        Err(error) => say_failed(b"size", Some(error)),
    }
}

// Applies the list to what argument i names, the last of `count` words.
fn apply_to(rt: &HostRuntime, i: usize, count: usize, onto: Onto) {
    if word_count(rt) != count {
        usage(STDERR_FILENO);
        return;
    }
    if let Some(file) = open(rt, i) {
        let mut path = io::buffer();
        let n = take_word(rt, i, &mut path);
        apply_open(rt, &file, onto, &path[..n]);
    }
}

// Whether the first argument is this word.
fn is_word(rt: &HostRuntime, word: &[u8]) -> bool {
    program_calls::is_word(rt, 1, word)
}

fn main(rt: HostRuntime) {
    if is_word(&rt, b"--help") {
        usage(STDOUT_FILENO);
        return;
    }
    if is_word(&rt, b"--extend") {
        apply_to(&rt, 2, 3, Onto::Extended);
        return;
    }
    if is_word(&rt, b"--empty") {
        apply_to(&rt, 2, 3, Onto::Blank);
        return;
    }
    if is_word(&rt, b"--hole") {
        apply_to(&rt, 2, 3, Onto::Hole);
        return;
    }
    apply_to(&rt, 1, 2, Onto::Anything);
}
