// What is said on standard error: which word is refused, why, and what is expected.
use program_calls::{STDERR_FILENO, take_word};
use request_expected::{put_expected, put_name};
use request_texts::{MALFORMED, TOO_LARGE};
use request_words::Made;
use request_words::values::KEYS;
use request_words::words::{MISSING, TWICE};

pub(crate) fn say(text: &[u8]) {
    io::write_all(STDERR_FILENO, text);
}

// Writes the first n bytes, where there are so many.
fn write_first(fd: i32, text: &[u8], n: usize) {
    if let Some(first) = text.get(..n) {
        io::write_all(fd, first);
    }
}

// The name of a key.
fn write_name(fd: i32, key: usize) {
    let mut text = io::buffer();
    let w = put_name(key, &mut text, 0);
    write_first(fd, &text, w.end);
    io::write_all(fd, b"=");
}

// What is expected behind it.
fn write_expected(fd: i32, key: usize) {
    let mut text = io::buffer();
    let w = put_expected(key, &mut text, 0);
    write_first(fd, &text, w.end);
    io::write_all(fd, b"\n");
}

// The argument itself, or as much of it as there is room for.
fn say_word(rt: &HostRuntime, i: usize) {
    let mut word = io::buffer();
    let n = take_word(rt, i, &mut word);
    io::write_all(STDERR_FILENO, &word[..n]);
}

// The argument that gave the word of this index: `device=` gives three.
fn argument_of(index: usize, device: Option<usize>) -> usize {
    match device {
        None => index.wrapping_add(1),
        Some(device) if index < device => index + 1,
        Some(device) if index - device < 2 => device,
        Some(_) => index - 1,
    }
}

// Why it is refused.
fn say_why(number: u32) {
    if number == MALFORMED as u32 {
        say(b": malformed; expected ");
        return;
    }
    if number == TOO_LARGE as u32 {
        say(b": too large; expected ");
        return;
    }
    say(b": unknown; expected ");
}

// Which word is refused or missing, why, and what is expected.
pub(crate) fn explain(rt: &HostRuntime, made: Made, device: Option<usize>) {
    say(b"mkrequest: ");
    if made.number == MISSING as u32 {
        write_name(STDERR_FILENO, made.key);
        say(b" is missing; expected ");
        write_expected(STDERR_FILENO, made.key);
        return;
    }
    say_word(rt, argument_of(made.index, device));
    if made.number == TWICE as u32 {
        say(b": ");
        write_name(STDERR_FILENO, made.key);
        say(b" stands again behind it; expected once\n");
        return;
    }
    say_why(made.number);
    write_expected(STDERR_FILENO, made.key);
}

// A word with what it takes.
fn write_word(fd: i32, key: usize) {
    write_name(fd, key);
    io::write_all(fd, b" ");
    write_expected(fd, key);
}

// Every word.
fn write_words(fd: i32) {
    for key in 0..KEYS {
        write_word(fd, key);
    }
}

pub(crate) fn usage(fd: i32) {
    io::write_all(fd, b"usage: mkrequest WORD.. > INPUT\n");
    io::write_all(
        fd,
        b"Writes the input records of a disk. device=, or size= logical= and physical=, and uuid= have to be there. K, M, G, T, P and E behind\n",
    );
    io::write_all(
        fd,
        b"a number are powers of 1024.\ndevice= the path of a file or block device, which gives size and sectors\n",
    );
    write_words(fd);
}
