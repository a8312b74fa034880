// Lines on standard output, and why a question isn't answered.
use program_calls::{STDERR_FILENO, say_failed};
use refusal_print::say_refusal;
use std::io::{Error, Result};
use table_lines::Written;

// Why a question isn't answered.
#[derive(Clone, Copy)]
pub(crate) enum Failed {
    Words, // they ask none
    Input(Error),
    Output(Error),
    File, // which one can't be read is said already
}

// An error of a line that is written.
impl From<Error> for Failed {
    fn from(error: Error) -> Failed {
        Failed::Output(error)
    }
}

// Says on standard error why a question isn't answered; words that ask none get the usage.
pub(crate) fn say_why(failed: Failed) {
    match failed {
        Failed::Words => crate::usage(STDERR_FILENO),
        Failed::Input(error) => say_failed(b"standard input", Some(error)),
        Failed::Output(error) => say_failed(b"standard output", Some(error)),
        Failed::File => {}
    }
}

// Writes the line.
pub(crate) fn write_line<P: Print>(rt: &P, w: Written, line: &[u8]) -> Result<()> {
    match line.get(..w.end) {
        Some(first) => rt.write_all(first),
        None => Err(Error::other("the line ends behind its buffer")),
    }
}

// `refused` and the number, and its sentence on standard error.
pub(crate) fn say_refused<P: Print>(rt: &P, number: u32) -> Result<()> {
    let mut line = io::buffer();
    say_refusal(number);
    let w = table_lines::put_refused(number as u64, &mut line, 0);
    write_line(rt, w, &line)
}
