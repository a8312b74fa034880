// `inquire holds GROUP CALL..`: what holding runs of blocks back and giving them back leaves of a group's free records, of the disk that
// input records on standard input ask for. The words and the calls are those of `inquire_holds`, the lines those of `table_lines`.
use crate::output::{Failed, say_refused, write_line};
use crate::words::{number, read_records};
use btree::AllocRec;
use inquire_holds::{Call, Opened};
use plan_holds::Holds;
use program_calls::{take_word, word_count};
use std::io::Error;

// The index of GROUP among the words, and that of the first call.
const GROUP: usize = 2;

const CALLS: usize = 3;

pub(crate) fn usage(fd: i32) {
    io::write_all(
        fd,
        b"usage: inquire holds GROUP CALL.. <RECORDS, a CALL being hold:START:LENGTH or release:START:LENGTH, in blocks of the group\n",
    );
}

fn call(rt: &HostRuntime, i: usize) -> Call {
    let mut word = io::buffer();
    let n = take_word(rt, i, &mut word);
    inquire_holds::words::call_of(&word[..n])
}

// Every word from the first call on has to say one.
fn look_at_calls(rt: &HostRuntime) -> Result<(), Failed> {
    for i in CALLS..word_count(rt) {
        let c = call(rt, i);
        if c.number != 0 {
            return Err(Failed::Words);
        }
    }
    Ok(())
}

fn say_answer<P: Print>(rt: &P, release: bool, number: u32) -> std::io::Result<()> {
    let mut line = io::buffer();
    let w = table_lines::put_answer(release, number as u64, &mut line, 0);
    write_line(rt, w, &line)
}

fn say_run<P: Print>(rt: &P, held: bool, r: AllocRec) -> std::io::Result<()> {
    let mut line = io::buffer();
    let w = table_lines::put_run(held, r.start as u64, r.count as u64, &mut line, 0);
    write_line(rt, w, &line)
}

// Free records or runs held, in order.
fn say_runs<P: Print>(rt: &P, held: bool, recs: &[AllocRec]) -> std::io::Result<()> {
    for r in recs {
        say_run(rt, held, *r)?;
    }
    Ok(())
}

// The free records, and then the runs held.
fn say_left<P: Print>(rt: &P, s: Holds) -> std::io::Result<()> {
    let free = s.free;
    let held = s.held;
    match free.recs.get(..free.len) {
        Some(recs) => say_runs(rt, false, recs)?,
        None => return Err(Error::other("more free records than there is room for")),
    }
    match held.recs.get(..held.len) {
        Some(recs) => say_runs(rt, true, recs),
        None => Err(Error::other("more runs held than there is room for")),
    }
}

// Makes the calls one after the other, then says what they leave; an error where a write failed.
fn make_calls(rt: &HostRuntime, o: Opened) -> std::io::Result<()> {
    let g = o.geometry;
    let mut s = o.state;
    for i in CALLS..word_count(rt) {
        let c = call(rt, i);
        let t = inquire_holds::step(g, s, c);
        say_answer(rt, c.release, t.number)?;
        s = t.state;
    }
    say_left(rt, s)
}

fn say(rt: &HostRuntime, o: Opened) -> std::io::Result<()> {
    if o.number != 0 {
        return say_refused(rt, o.number);
    }
    make_calls(rt, o)
}

// Answers, unless the words are wrong or a call failed.
pub(crate) fn answer(rt: &HostRuntime) -> Result<(), Failed> {
    let agno = number(rt, GROUP)?;
    look_at_calls(rt)?;
    let mut input = request::input_buffer();
    let n = read_records(rt, &mut input)?;
    say(rt, inquire_holds::open(&input[..n], agno))?;
    Ok(())
}
