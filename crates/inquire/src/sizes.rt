// `inquire sizes SMALLEST LARGEST`: whether every device size between the two is formatted, by the options and sectors of input records on
// standard input. The answer is that of `inquire_sizes`, the lines are made of those of `inquire_lines`.
use crate::output::{Failed, say_refused, write_line};
use crate::words::{read_records, size};
use inquire_sizes::Range;
use program_calls::word_count;

// The indices of the two words, and how many words there are.
const SMALLEST: usize = 2;

const LARGEST: usize = 3;

const WORDS: usize = 4;

pub(crate) fn usage(fd: i32) {
    io::write_all(
        fd,
        b"usage: inquire sizes SMALLEST LARGEST <RECORDS, two device sizes in bytes or with K, M, G, T, P, E; time and profile aren't looked at\n",
    );
}

fn say_formatted<P: Print>(rt: &P) -> std::io::Result<()> {
    let mut line = io::buffer();
    let w = inquire_lines::put_word(b"formatted", &mut line, 0);
    write_line(rt, w, &line)
}

// The smallest refused size, and its number.
fn say_size<P: Print>(rt: &P, blocks: u64, number: u32) -> std::io::Result<()> {
    let mut line = io::buffer();
    let w = inquire_lines::put_item(b"blocks", blocks, false, &mut line, 0);
    let v = inquire_lines::put_item(b"refused", number as u64, true, &mut line, w.end);
    write_line(rt, v, &line)
}

fn say<P: Print>(rt: &P, r: Range) -> std::io::Result<()> {
    if r.number != 0 {
        return say_refused(rt, r.number);
    }
    if r.refusal != 0 {
        return say_size(rt, r.blocks, r.refusal);
    }
    say_formatted(rt)
}

// Answers, unless the words are wrong or a call failed.
pub(crate) fn answer(rt: &HostRuntime) -> Result<(), Failed> {
    let smallest = size(rt, SMALLEST)?;
    let largest = size(rt, LARGEST)?;
    if word_count(rt) != WORDS {
        return Err(Failed::Words);
    }
    let mut input = request::input_buffer();
    let n = read_records(rt, &mut input)?;
    say(rt, inquire_sizes::sizes_of(&input[..n], smallest, largest))?;
    Ok(())
}
