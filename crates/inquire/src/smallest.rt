// `inquire smallest START COUNT WANTED`: the smallest of so many device sizes from START on, 1 MiB apart, that leaves so many free blocks,
// by the options and sectors of input records on standard input. The answer is that of `inquire_smallest`.
use crate::output::{Failed, say_refused, write_line};
use crate::words::{number, read_records, size};
use inquire_smallest::Found;
use program_calls::word_count;

// The indices of the three words, and how many words there are.
const START: usize = 2;

const COUNT: usize = 3;

const WANTED: usize = 4;

const WORDS: usize = 5;

pub(crate) fn usage(fd: i32) {
    io::write_all(
        fd,
        b"usage: inquire smallest START COUNT WANTED <RECORDS, START in bytes or with K, M, G, T, P, E; COUNT sizes, 1 MiB apart; WANTED free blocks; time and profile aren't looked at\n",
    );
}

fn say<P: Print>(rt: &P, f: Found) -> std::io::Result<()> {
    if f.number != 0 {
        return say_refused(rt, f.number);
    }
    let mut line = io::buffer();
    let w = inquire_lines::put_item(b"size", f.size, true, &mut line, 0);
    write_line(rt, w, &line)
}

// Answers, unless the words are wrong or a call failed.
pub(crate) fn answer(rt: &HostRuntime) -> Result<(), Failed> {
    let start = size(rt, START)?;
    let count = number(rt, COUNT)?;
    let wanted = number(rt, WANTED)?;
    if word_count(rt) != WORDS {
        return Err(Failed::Words);
    }
    let mut input = request::input_buffer();
    let n = read_records(rt, &mut input)?;
    let found = inquire_smallest::smallest_of(&input[..n], start, count, wanted);
    say(rt, found)?;
    Ok(())
}
