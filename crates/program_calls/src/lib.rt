// What the programs have in common where they meet the system: the words that they are given, the files that these name, and how a call
// that failed is said.
#![tactic(auto)]

ghost use Rattle.io.specs.Counts.{IsPrefixLen};

use std::env::{Env, FillError};
use std::fs::{File, OpenOptions};
use std::io::{Cursor, Error, ErrorKind, Result, Write};
use std::rt::Files;

// The numbers of the three streams.
pub const STDIN_FILENO: i32 = 0;

pub const STDOUT_FILENO: i32 = 1;

pub const STDERR_FILENO: i32 = 2;

// How many words the program was started with, its own name among them.
pub fn word_count<E: Env>(rt: &E) -> usize {
    let mut word = [0u8; 1];
    for i in 0..usize::MAX {
        if let Err(FillError::NotPresent) = rt.arg(i, &mut word) {
            return i;
        }
    }
    usize::MAX
}

// Puts a word at the start of the buffer and says how many bytes it has; 0 where there is none, or one longer than the buffer.
pub fn take_word<E: Env>(rt: &E, i: usize, word: &mut [u8]) -> usize
    ensures { IsPrefixLen result word.new }
{
    match rt.arg(i, word) {
        Ok(n) => n,
        Err(_) => 0,
    }
}

// The system's error for a word that isn't there or is too long: EINVAL or ENAMETOOLONG.
pub fn fill_error(error: FillError) -> Error {
    match error {
        FillError::NotPresent => Error::from_raw_os_error(22),
        FillError::TooLong => Error::from_raw_os_error(36),
    }
}

// Whether the word of this index is this one.
pub fn is_word<E: Env>(rt: &E, i: usize, text: &[u8]) -> bool {
    let mut word = io::buffer();
    let n = take_word(rt, i, &mut word);
    &word[..n] == text
}

// The text of a path. The library names a file by text alone, so one that isn't UTF-8 names none.
fn path_text(path: &[u8]) -> Result<&str> {
    str::from_utf8(path).map_err(|_| Error::from(ErrorKind::InvalidFilename))
}

// Opens the file at a path for reading.
pub fn open_read<R: Files>(rt: &R, path: &[u8]) -> Result<R::File> {
    File::open(rt, path_text(path)?)
}

// Opens the file at a path for reading and writing. It has to be there, and its bytes are left as they are.
pub fn open_update<R: Files>(rt: &R, path: &[u8]) -> Result<R::File> {
    let text = path_text(path)?;
    OpenOptions::new().read(true).write(true).open(rt, text)
}

// How many bytes stand before the system's number, as ` (os error 2)`.
fn words_length(text: &[u8]) -> usize
    ensures { IsPrefixLen result text.now }
{
    for i in 0..text.len() {
        if text[i..].starts_with(b" (os error ") {
            return i;
        }
    }
    text.len()
}

// The error in words, without the system's number; nothing where it has none.
fn say_words(error: Error) {
    let mut text = [0u8; 256];
    let mut out = Cursor::new(&mut text[..]);
    let said = write!(out, "{error}");
    let n = out.position() as usize;
    if said.is_ok() && n <= text.len() {
        let words = words_length(&text[..n]);
        io::write_all(STDERR_FILENO, &text[..words]);
    }
}

// Writes a line to standard error: what failed, a colon, and the error in words, where the system named one.
pub fn say_failed(what: &[u8], error: Option<Error>) {
    io::write_all(STDERR_FILENO, what);
    io::write_all(STDERR_FILENO, b": ");
    match error {
        Some(e) => say_words(e),
        None => {
            io::write_all(STDERR_FILENO, b"failed");
        }
    }
    io::write_all(STDERR_FILENO, b"\n");
}
