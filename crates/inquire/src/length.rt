// `inquire length`: how much `writelist` will send for the input records on standard input. The numbers are `list_size`'s, the line
// `inquire_lines`'.
use crate::output::{Failed, say_refused, write_line};
use crate::words::read_records;
use inquire_lines::put_size;
use list_size::{ListSize, list_size};
use program_calls::word_count;

pub(crate) fn usage(fd: i32) {
    io::write_all(
        fd,
        b"usage: inquire length <RECORDS: how many records, bytes and bytes of blocks writelist sends\n",
    );
}

fn say_size<P: Print>(rt: &P, s: ListSize) -> std::io::Result<()> {
    let mut line = io::buffer();
    let w = put_size(s, &mut line, 0);
    write_line(rt, w, &line)
}

fn say<P: Print>(rt: &P, s: ListSize) -> std::io::Result<()> {
    if s.number != 0 {
        return say_refused(rt, s.number);
    }
    say_size(rt, s)
}

// Answers, unless the words are wrong or a call failed.
pub(crate) fn answer(rt: &HostRuntime) -> Result<(), Failed> {
    if word_count(rt) != 2 {
        return Err(Failed::Words);
    }
    let mut input = request::input_buffer();
    let n = read_records(rt, &mut input)?;
    say(rt, list_size(&input[..n]))?;
    Ok(())
}
