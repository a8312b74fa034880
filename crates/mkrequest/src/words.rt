// The words, each ended by a zero byte. A word that the system answers is replaced by what it says: `device=PATH` by size and sectors,
// `uuid=random` by a UUID that it draws, `time=now` by its seconds. So `words_request` says what is written of words that anyone can read.
use crate::said::say;
use device_sizes::{NO_LOGICAL, NO_SIZE, Sizes, sizes_of};
use input_bytes::read_input;
use program_calls::{STDERR_FILENO, open_read, say_failed, word_count};
use std::env::Env;
use std::time::Clock;
use table_lines::{Written, put_number};
use text_pages::put_text;

// How many bytes the words have so far, and which argument is `device=`: the first counts.
#[derive(Clone, Copy)]
pub(crate) struct Taken {
    pub(crate) n: usize,
    pub(crate) device: Option<usize>,
}

// A word is refused, and which one is said.
#[derive(Drop)]
pub(crate) struct Refused;

fn too_long() -> Refused {
    say(b"mkrequest: the words have more bytes than any request needs\n");
    Refused
}

// Where what was put ends, unless it had no room.
fn end_of(w: Written) -> Result<usize, Refused> {
    if w.number != 0 {
        return Err(too_long());
    }
    Ok(w.end)
}

// A text and a zero byte, behind the first `n` bytes.
fn push(text: &[u8], n: usize, words: &mut [u8]) -> Result<usize, Refused> {
    let end = end_of(put_text(text, words, n))?;
    end_of(put_text(&[0], words, end))
}

// A name, a number and a zero byte.
fn push_number(name: &[u8], value: u64, n: usize, words: &mut [u8]) -> Result<usize, Refused> {
    let end = end_of(put_text(name, words, n))?;
    end_of(put_number(value, 0, words, end))
}

// A device's size and sectors.
fn push_sizes(s: Sizes, n: usize, words: &mut [u8]) -> Result<usize, Refused> {
    let size = push_number(b"size=", s.size, n, words)?;
    let logical = push_number(b"logical=", s.logical, size, words)?;
    push_number(b"physical=", s.physical, logical, words)
}

// What can't be read of a device.
fn say_unread(path: &[u8], failed: u8) {
    say(b"mkrequest: device=");
    say(path);
    if failed == NO_SIZE {
        say(b": its size can't be read\n");
        return;
    }
    if failed == NO_LOGICAL {
        say(b": its logical sector can't be read\n");
        return;
    }
    say(b": its physical sector can't be read\n");
}

// Size and sectors of the device or file at a path.
fn push_device(
    rt: &HostRuntime,
    path: &[u8],
    n: usize,
    words: &mut [u8],
) -> Result<usize, Refused> {
    let s = match open_read(rt, path) {
        Ok(file) => sizes_of(rt, &file),
        Err(error) => {
            io::write_all(STDERR_FILENO, b"open: ");
            say_failed(path, Some(error));
            return Err(Refused);
        }
    };
    if s.failed != 0 {
        say_unread(path, s.failed);
        return Err(Refused);
    }
    push_sizes(s, n, words)
}

// Whether the system drew a UUID: 36 characters.
fn draws(rt: &HostRuntime, uuid: &mut [u8]) -> bool {
    let Ok(mut file) = open_read(rt, b"/proc/sys/kernel/random/uuid") else {
        return false;
    };
    let got = read_input(&mut file, uuid);
    got.n == 36
}

// A UUID that the system draws.
fn push_uuid(rt: &HostRuntime, n: usize, words: &mut [u8]) -> Result<usize, Refused> {
    let mut uuid = [0u8; 36];
    if !draws(rt, &mut uuid) {
        say(b"mkrequest: uuid=random: the system draws none\n");
        return Err(Refused);
    }
    let end = end_of(put_text(b"uuid=", words, n))?;
    push(&uuid, end, words)
}

// The system's clock, in seconds since 1970.
fn push_time(rt: &HostRuntime, n: usize, words: &mut [u8]) -> Result<usize, Refused> {
    let seconds = match rt.since_1970() {
        Ok(t) => t.as_secs(),
        Err(_) => 0,
    };
    if seconds == 0 {
        say(b"mkrequest: time=now: the system has no clock\n");
        return Err(Refused);
    }
    push_number(b"time=", seconds, n, words)
}

// A word, or what stands for it.
fn push_word(rt: &HostRuntime, word: &[u8], n: usize, words: &mut [u8]) -> Result<usize, Refused> {
    match word {
        b"uuid=random" => push_uuid(rt, n, words),
        b"time=now" => push_time(rt, n, words),
        _ => push(word, n, words),
    }
}

// The argument of this index, behind the words so far.
fn take_word(
    rt: &HostRuntime,
    i: usize,
    before: Taken,
    words: &mut [u8],
) -> Result<Taken, Refused> {
    let mut buf = io::buffer();
    let Ok(length) = rt.arg(i, &mut buf) else {
        return Err(too_long());
    };
    let word = &buf[..length];
    if let Some(path) = word.strip_prefix(b"device=") {
        return Ok(Taken {
            n: push_device(rt, path, before.n, words)?,
            device: before.device.or(Some(i)),
        });
    }
    Ok(Taken {
        n: push_word(rt, word, before.n, words)?,
        device: before.device,
    })
}

// All arguments.
pub(crate) fn take_words(rt: &HostRuntime, words: &mut [u8]) -> Result<Taken, Refused> {
    let mut taken = Taken { n: 0, device: None };
    for i in 1..word_count(rt) {
        taken = take_word(rt, i, taken, words)?;
    }
    Ok(taken)
}
