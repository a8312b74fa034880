// What the system says of an open file or block device: its size, and its logical and physical sector. Nothing is guessed: what can't be
// read is said. A device's sectors are sysfs's, by the name that the system has for the open device, so that links to it make no
// difference; the device of that name has to have the open one's size.
#![tactic(auto)]

ghost use Rattle.std.specs.Prelude.{◌≡◌};
ghost use Rattle.device_sizes.specs.Offsets.{bytes_to};

use input_bytes::read_input;
use request_texts::{decimal, leading};
use std::alloc::Allocator;
use std::fs::{File, read_link};
use std::io::{Error, ErrorKind, Read, Result, Seek, SeekFrom};
use std::os::fd::AsRawFd;
use std::os::unix::fs::FileTypeExt;
use std::path::PathBuf;
use std::rt::Files;

// Size and sectors in bytes; `failed` is 0, or says what can't be read.
#[derive(Clone, Copy)]
pub struct Sizes {
    pub failed: u8,
    pub size: u64,
    pub logical: u64,
    pub physical: u64,
}

pub const NO_SIZE: u8 = 1;

pub const NO_LOGICAL: u8 = 2;

pub const NO_PHYSICAL: u8 = 3;

// The sector of a plain file.
const PLAIN: u64 = 512;

// The unit of a device's size in sysfs.
const UNIT: u64 = 512;

// An offset that isn't negative, as a number of bytes; 0 of any other.
pub fn bytes_to(offset: i64) -> u64
    ensures { result ≡ bytes_to offset }
{
    if offset < 0 {
        return 0;
    }
    offset as u64
}

// Whether the file is a block device.
pub fn is_device(file: &File) -> bool {
    match file.metadata() {
        Ok(m) => m.file_type().is_block_device(),
        Err(_) => false,
    }
}

// The link that the system keeps to an open file.
fn link_to<A: Allocator>(alloc: A, file: &File) -> Result<String<A>> {
    let fd = file.as_raw_fd();
    Ok(format!(in alloc; "/proc/self/fd/{fd}")?)
}

// The path of an open file.
fn path_of<R: Files + Alloc>(rt: &R, file: &File) -> Result<PathBuf<R::A>> {
    let link = link_to(rt.alloc(), file)?;
    read_link(rt, link.as_str())
}

// The part of a path behind its last slash.
fn name_of(path: &[u8]) -> &[u8] {
    match path.iter().rposition(|b| *b == b'/') {
        Some(i) => &path[i + 1..],
        None => path,
    }
}

// Opens the file of this name in the system's folder of the device.
fn open_of<R: Files>(rt: &R, name: &[u8], file: &[u8]) -> Result<R::File> {
    if 3000 < name.len() {
        return Err(Error::from(ErrorKind::InvalidFilename));
    }
    if 1000 < file.len() {
        return Err(Error::from(ErrorKind::InvalidFilename));
    }
    let behind = 17 + name.len();
    let end = behind + file.len();
    let mut path = io::buffer();
    endian::put_bytes(&mut path, 0, b"/sys/class/block/");
    endian::put_bytes(&mut path, 17, name);
    endian::put_bytes(&mut path, behind, file);
    match str::from_utf8(&path[..end]) {
        Ok(text) => File::open(rt, text),
        Err(_) => Err(Error::from(ErrorKind::InvalidFilename)),
    }
}

// The number that the text begins with.
fn number_of(text: &[u8]) -> u64 {
    let n = leading(text);
    let v = decimal(&text[..n]);
    v.value
}

// The number that the file of this name begins with; 0 where it can't be read.
fn number_in<R: Files>(rt: &R, name: &[u8], file: &[u8]) -> u64 {
    let Ok(mut opened) = open_of(rt, name, file) else {
        return 0;
    };
    let mut text = io::buffer();
    let i = read_input(&mut opened, &mut text);
    number_of(&text[..i.n])
}

// A number of the device of this name, or of the disk that it is a partition of; 0 where the system doesn't say.
fn number_at<R: Files>(rt: &R, name: &[u8], own: &[u8], disk: &[u8]) -> u64 {
    let n = number_in(rt, name, own);
    if n != 0 {
        return n;
    }
    number_in(rt, name, disk)
}

fn failed(what: u8) -> Sizes {
    Sizes {
        failed: what,
        size: 0,
        logical: 0,
        physical: 0,
    }
}

// The sectors of the device of this name, which has to have this size.
fn named_sizes<R: Files>(rt: &R, name: &[u8], size: u64) -> Sizes {
    if number_in(rt, name, b"/size") != size / UNIT {
        return failed(NO_LOGICAL);
    }
    let logical = number_at(
        rt,
        name,
        b"/queue/logical_block_size",
        b"/../queue/logical_block_size",
    );
    if logical == 0 {
        return failed(NO_LOGICAL);
    }
    let physical = number_at(
        rt,
        name,
        b"/queue/physical_block_size",
        b"/../queue/physical_block_size",
    );
    if physical == 0 {
        return failed(NO_PHYSICAL);
    }
    Sizes {
        failed: 0,
        size,
        logical,
        physical,
    }
}

// The same of the device at a path.
fn sizes_at<R: Files>(rt: &R, path: &[u8], size: u64) -> Sizes {
    named_sizes(rt, name_of(path), size)
}

// The same of an open device.
fn device_sizes<R: Files + Alloc>(rt: &R, file: &File, size: u64) -> Sizes {
    match path_of(rt, file) {
        Ok(path) => sizes_at(rt, path.as_str().as_bytes(), size),
        Err(_) => failed(NO_LOGICAL),
    }
}

// A plain file can be read; a folder, of which the system says some size too, can't.
fn file_sizes(mut file: &File, size: u64) -> Sizes {
    let mut first = [0u8; 1];
    if file.read(&mut first).is_err() {
        return failed(NO_SIZE);
    }
    Sizes {
        failed: 0,
        size,
        logical: PLAIN,
        physical: PLAIN,
    }
}

// Size and sectors of an open file or block device.
pub fn sizes_of<R: Files + Alloc>(rt: &R, mut file: &File) -> Sizes {
    let Ok(size) = file.seek(SeekFrom::End(0)) else {
        return failed(NO_SIZE);
    };
    if file.seek(SeekFrom::Start(0)).is_err() {
        return failed(NO_SIZE);
    }
    if is_device(file) {
        return device_sizes(rt, file, size);
    }
    file_sizes(file, size)
}
