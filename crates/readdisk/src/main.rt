// Reads the disk or image that PATH names and prints planlist's table of it, or `refused N`. It is opened for reading alone. Told to admit
// disks of the scan station profile only, it judges what the pass accepted by its geometry (`reader_admit`). A pass (`reader_pass`) says
// which bytes it wants next and whether an accepted run leaves the disk, and `plan_table` makes the table of the geometry that its
// superblock names; here bytes are only read, and lines written. No line is printed before every head and the log's block are accepted;
// what the bytes of such a disk say of a group is its row (`whole-printed`, crate reader_uses).
#![tactic(auto)]

mod input; // reading
mod printed; // the table
mod words; // standard error

ghost use Rattle.std.specs.Prelude.{◌≡◌, length};

use arith::numbers::min_usize;
use program_calls::{STDERR_FILENO, STDOUT_FILENO, fill_error, open_read, say_failed, word_count};
use reader_pass::{Pass, Verdict, Wanted};
use std::env::Env;
use std::fs::File;
use std::io::{Error, Write};

// Why the reading or the writing stopped.
#[derive(Clone, Copy)]
pub(crate) enum Stop {
    Ended,
    ReadFailed(Error),
    WriteFailed(Option<Error>),
}

// Bytes of ten blocks of 4096 bytes: room for the heads of most disks.
const FEW: usize = 40960;

fn few_bytes() -> [u8; 40960]
    ensures { 40960 ≡ length result }
{
    [0; 40960]
}

// Room for the largest head: 10 blocks of 16,384 bytes.
fn most_bytes() -> [u8; 163840]
    ensures { 163840 ≡ length result }
{
    [0; 163840]
}

// The pass, why its reading stopped, if it did, and where the bytes that were read last stand on the disk.
#[derive(Clone, Copy)]
struct Reading {
    stop: Option<Stop>,
    pass: Pass,
    offset: u64,
    length: usize,
}

// Reads at the offset and feeds what was read, in buffers of its length.
fn read_and_feed(file: &File, p: Pass, offset: u64, work: &mut [u8], buf: &mut [u8]) -> Reading {
    match input::fill(file, offset, buf) {
        Ok(()) => Reading {
            stop: None,
            pass: reader_pass::feed(p, buf, work),
            offset,
            length: buf.len(),
        },
        Err(stop) => Reading {
            stop: Some(stop),
            pass: p,
            offset,
            length: 0,
        },
    }
}

// One turn. Buffers that are shorter than what is wanted give the pass fewer bytes, and it refuses them.
fn turn(file: &File, p: Pass, w: Wanted, work: &mut [u8], buf: &mut [u8]) -> Reading {
    let n = min_usize(w.length, min_usize(work.len(), buf.len()));
    read_and_feed(file, p, w.offset, &mut work[..n], &mut buf[..n])
}

// What is read next, unless the reading stopped or the pass is done.
fn next_wanted(r: Reading) -> Option<Wanted> {
    let w = reader_pass::wants(r.pass);
    if r.stop.is_some() || w.done {
        None
    } else {
        Some(w)
    }
}

// All turns that are still to come.
fn read_on(file: &File, first: Reading, work: &mut [u8], buf: &mut [u8]) -> Reading {
    let mut r = first;
    for _ in 0..u64::MAX {
        let Some(w) = next_wanted(r) else {
            break;
        };
        r = turn(file, r.pass, w, work, buf);
    }
    r
}

// The table of an accepted disk, the refusal of the bytes that stand at this offset, or that of a disk outside the profile.
fn answer<W: Write>(
    out: &mut W,
    v: Verdict,
    told: bool,
    offset: u64,
    bytes: &[u8],
) -> Result<(), Stop> {
    let g = v.geometry;
    let uuid = v.uuid;
    if v.number != 0 {
        words::say_refused(v, offset, bytes);
        return printed::print_refused(out, v.number);
    }
    let n = reader_admit::admit(told, g, v.number);
    if n != 0 {
        words::say_outside();
        return printed::print_refused(out, n);
    }
    words::say_disk(g, uuid);
    printed::print_table(out, g)
}

// What is said where the answer wasn't written.
fn say_written(written: Result<(), Stop>) {
    if let Err(stop) = written {
        io::write_all(STDERR_FILENO, b"table");
        words::say_stop(stop);
    }
}

// What is said of a disk whose reading stopped: one that ends early is refused by the number of a pass that isn't finished.
fn say_stopped<W: Write>(out: &mut W, stop: Stop, v: Verdict) {
    let g = v.geometry;
    words::say_place(v.place, g.agcount);
    words::say_stop(stop);
    if let Stop::Ended = stop {
        say_written(printed::print_refused(out, v.number));
    }
}

// What is said of a disk that was read; the buffer begins with the bytes that were read last.
fn say_read<W: Write>(out: &mut W, r: Reading, told: bool, buf: &[u8]) {
    let v = reader_pass::finish(r.pass);
    if let Some(stop) = r.stop {
        return say_stopped(out, stop, v);
    }
    let n = min_usize(r.length, buf.len());
    say_written(answer(out, v, told, r.offset, &buf[..n]));
}

fn read_few<W: Write>(out: &mut W, file: &File, told: bool, first: Reading) {
    let mut work = few_bytes();
    let mut buf = few_bytes();
    let r = read_on(file, first, &mut work, &mut buf);
    say_read(out, r, told, &buf);
}

fn read_most<W: Write>(out: &mut W, file: &File, told: bool, first: Reading) {
    let mut work = most_bytes();
    let mut buf = most_bytes();
    let r = read_on(file, first, &mut work, &mut buf);
    say_read(out, r, told, &buf);
}

// The first turn says how long a head is.
fn read_open<W: Write>(out: &mut W, file: &File, told: bool) {
    let mut work = [0u8; 512];
    let mut buf = [0u8; 512];
    let begun = reader_pass::begin();
    let first = turn(file, begun, reader_pass::wants(begun), &mut work, &mut buf);
    match next_wanted(first) {
        None => say_read(out, first, told, &buf),
        Some(w) if w.length <= FEW => read_few(out, file, told, first),
        Some(_) => read_most(out, file, told, first),
    }
}

// Opens the file at a path, or says why not.
fn open_path(rt: &HostRuntime, path: &[u8]) -> Option<File> {
    match open_read(rt, path) {
        Ok(file) => Some(file),
        Err(error) => {
            io::write_all(STDERR_FILENO, b"open: ");
            say_failed(path, Some(error));
            None
        }
    }
}

// Opens the file that argument i names.
fn open(rt: &HostRuntime, i: usize) -> Option<File> {
    let mut path = io::buffer();
    match rt.arg(i, &mut path) {
        Ok(n) => open_path(rt, &path[..n]),
        Err(error) => {
            say_failed(b"path", Some(fill_error(error)));
            None
        }
    }
}

fn usage(fd: i32) {
    io::write_all(fd, b"usage: readdisk [--profile] PATH\n");
}

// Whether the first argument is this word.
fn is_word(rt: &HostRuntime, word: &[u8]) -> bool {
    program_calls::is_word(rt, 1, word)
}

// Reads what argument i names, the last of `count` words.
fn read(rt: &HostRuntime, i: usize, count: usize, told: bool) {
    if word_count(rt) != count {
        usage(STDERR_FILENO);
        return;
    }
    if let Some(file) = open(rt, i) {
        read_open(&mut rt.stdout(), &file, told);
    }
}

fn main(rt: HostRuntime) {
    if is_word(&rt, b"--help") {
        usage(STDOUT_FILENO);
        return;
    }
    if is_word(&rt, b"--profile") {
        read(&rt, 2, 3, true);
        return;
    }
    read(&rt, 1, 2, false);
}
