// Writes the input records that its words ask for, such as `size=2T`, to standard output. A word that is refused is named on standard
// error, with what is expected; nothing is written then.
#![tactic(auto)]

mod said; // what is said on standard error
mod words; // the words, as they are handed on

use program_calls::{STDERR_FILENO, STDOUT_FILENO, say_failed, word_count};
use said::{explain, usage};
use std::io::{Error, Result, Write};
use words::take_words;

// Writes the first n bytes.
fn write_first<W: Write>(out: &mut W, text: &[u8], n: usize) -> Result<()> {
    match text.get(..n) {
        Some(first) => out.write_all(first),
        None => Err(Error::other("the records end behind their buffer")),
    }
}

// Writes the records of the words, or which one is refused; an error where a write failed.
fn answer(rt: &HostRuntime, words: &[u8], device: Option<usize>) -> Result<()> {
    let mut records = io::buffer();
    let made = request_words::make_records(words, &mut records);
    if made.number != 0 {
        explain(rt, made, device);
        return Ok(());
    }
    write_first(&mut rt.stdout(), &records, made.length)
}

// The same of the first n bytes.
fn answer_first(rt: &HostRuntime, words: &[u8], n: usize, device: Option<usize>) -> Result<()> {
    match words.get(..n) {
        Some(first) => answer(rt, first, device),
        None => Err(Error::other("the words end behind their buffer")),
    }
}

// Whether the first argument is this word.
fn is_word(rt: &HostRuntime, word: &[u8]) -> bool {
    program_calls::is_word(rt, 1, word)
}

fn make(rt: &HostRuntime) {
    let mut words = io::buffer();
    let Ok(taken) = take_words(rt, &mut words) else {
        return;
    };
    if let Err(error) = answer_first(rt, &words, taken.n, taken.device) {
        say_failed(b"standard output", Some(error));
    }
}

fn main(rt: HostRuntime) {
    if is_word(&rt, b"--help") {
        usage(STDOUT_FILENO);
        return;
    }
    if word_count(&rt) < 2 {
        usage(STDERR_FILENO);
        return;
    }
    make(&rt);
}
