// Whether a file or device is empty: it holds nothing but zeros at its ends, or, as a plain file, nothing at all.
ghost use Rattle.std.specs.Prelude.{◌≡◌, length};

use list_holes::is_blank;
use std::fs::File;
use std::os::unix::fs::{FileExt, MetadataExt};

// How many bytes an end has: the first and the last 128 KiB.
const END: u64 = 131072;

// Room for one end.
fn one_end() -> [u8; 131072]
    ensures { 131072 ≡ length result }
{
    [0; 131072]
}

// Whether the bytes from the offset on are there, as many as are lent, and all of them are zero.
pub(crate) fn is_blank_at(file: &File, at: u64, buf: &mut [u8]) -> bool {
    file.read_exact_at(buf, at).is_ok() && is_blank(buf)
}

// The same of 128 KiB.
fn is_blank_end(file: &File, at: u64) -> bool {
    let mut bytes = one_end();
    is_blank_at(file, at, &mut bytes)
}

// Whether both ends hold zeros alone; bytes that can't be read aren't zeros. No list fits a file that is shorter than one end.
pub(crate) fn are_blank(file: &File, size: u64) -> bool {
    match size.checked_sub(END) {
        Some(last) => is_blank_end(file, 0) && is_blank_end(file, last),
        None => true,
    }
}

// Whether it is a plain file for which the system keeps no block, so that it holds no data at all.
fn has_no_block(file: &File) -> bool {
    match file.metadata() {
        Ok(m) => m.is_file() && m.blocks() == 0,
        Err(_) => false,
    }
}

// Whether a plain file is one hole. Its ends are read too, since some systems count no blocks.
pub(crate) fn is_hole(file: &File, size: u64) -> bool {
    has_no_block(file) && are_blank(file, size)
}
