// Writing to the file, each byte at its offset.
ghost use Rattle.std.specs.Prelude.{◌+◌, ◌≤◌, ◌<◌, IfOk, length};
ghost use Rattle.list_read.specs.Records.{largest_offset};

use crate::Failed;
use crate::ends::is_blank_at;
use arith::numbers::min_usize;
use list_holes::in_hole;
use list_read::within;
use std::fs::File;
use std::os::unix::fs::FileExt;

// Waits until the bytes can be read again after a loss of power; the file's times may come later.
pub(crate) fn flush(file: &File) -> Result<(), Failed> {
    file.sync_data().map_err(Failed::Flush)
}

// One write, behind the first `done` of the bytes: how many it took, one at least.
fn put_rest(file: &File, bytes: &[u8], done: usize, at: u64) -> Result<usize, Failed>
    requires { (done ≤ length bytes.now) × (at + length bytes.now ≤ largest_offset) }
    ensures { IfOk result (λ k. (0 < k) × (done + k ≤ length bytes.now)) }
{
    match file.write_at(&bytes[done..], at + done as u64) {
        Ok(0) => Err(Failed::NothingTaken),
        Ok(k) => Ok(k),
        Err(error) => Err(Failed::Write(Some(error))),
    }
}

// All of the bytes, from the offset `at` on. A write that fails stops it, one that a signal interrupted too.
fn put_all(file: &File, bytes: &[u8], at: u64) -> Result<(), Failed>
    requires { at + length bytes.now ≤ largest_offset }
{
    let mut done = 0;
    while done < bytes.len() {
        done += put_rest(file, bytes, done, at)?;
    }
    Ok(())
}

// The first `n` of the bytes; where there are fewer, or no file reaches so far, nothing is written.
pub(crate) fn put_bytes(file: &File, bytes: &[u8], n: usize, at: u64) -> Result<(), Failed> {
    let Some(first) = bytes.get(..n) else {
        return Err(Failed::Write(None));
    };
    if !within(at, n as u64) {
        return Err(Failed::Write(None));
    }
    put_all(file, first, at)
}

// Whether zeros stand in the file already, `n` of them from the offset on: a hole reads as zeros.
fn are_zeros(file: &File, n: usize, at: u64) -> bool
    requires { at + n ≤ largest_offset }
{
    let mut bytes = io::large_buffer();
    let mut done = 0;
    while done < n {
        let k = min_usize(n - done, bytes.len());
        if !is_blank_at(file, at + done as u64, &mut bytes[..k]) {
            return false;
        }
        done += k;
    }
    true
}

// Where the zeros end that stand in the file already, `n` of them at least; none where the bytes are others, or aren't all there.
fn hole_end(file: &File, n: usize, at: u64) -> Option<u64> {
    if within(at, n as u64) {
        if are_zeros(file, n, at) {
            return Some(at + n as u64);
        }
    }
    None
}

// So many zeros, and where the zeros end that stood there already; 0 where they had to be written. None are written over zeros, so that
// a hole stays one, unless the file is to be filled. Behind the piece before this one stand zeros up to `until`, and nothing was written
// since.
pub(crate) fn put_blank(
    file: &File,
    zeros: &[u8],
    n: usize,
    at: u64,
    fills: bool,
    until: u64,
) -> Result<u64, Failed> {
    if fills {
        put_bytes(file, zeros, n, at)?;
        return Ok(0);
    }
    if in_hole(at, until, at, n as u64) {
        return Ok(until);
    }
    if let Some(end) = hole_end(file, n, at) {
        return Ok(end);
    }
    put_bytes(file, zeros, n, at)?;
    Ok(0)
}

// The same of any number, as many at a time as are lent.
pub(crate) fn put_zeros(
    file: &File,
    zeros: &[u8],
    len: usize,
    at: u64,
    fills: bool,
) -> Result<(), Failed> {
    if zeros.is_empty() {
        return Err(Failed::NothingTaken);
    }
    let mut until = 0;
    let mut done = 0;
    while done < len {
        let n = min_usize(len - done, zeros.len());
        let place = at.wrapping_add(done as u64);
        until = put_blank(file, zeros, n, place, fills, until)?;
        done += n;
    }
    Ok(())
}
