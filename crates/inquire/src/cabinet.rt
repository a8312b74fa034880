// `inquire cabinet AREA FILE..`: which of the disks whose input records stand in files have their lists admitted to one staging area. The
// answers are `list_cabinet`'s. The lines are kept until every file is read: where one can't be, nothing is printed.
use crate::output::{Failed, say_refused, write_line};
use crate::words::{read_stream, size};
use inquire_lines::put_item;
use list_cabinet::{Cabinet, enter, left_of};
use list_size::ListSize;
use program_calls::{open_read, say_failed, take_word, word_count};
use table_lines::Written;

// The index of AREA among the words, and that of the first file.
const AREA: usize = 2;

const FILES: usize = 3;

pub(crate) fn usage(fd: i32) {
    io::write_all(
        fd,
        b"usage: inquire cabinet AREA FILE..: which of up to 16 disks, by their records in files, have lists that fit an area of bytes\n",
    );
}

// The cabinet so far, and where the lines of its disks end.
#[derive(Clone, Copy)]
struct Filled {
    cabinet: Cabinet,
    end: usize,
}

fn put_answer(s: ListSize, lines: &mut [u8], at: usize) -> Written {
    if s.number != 0 {
        return table_lines::put_refused(s.number as u64, lines, at);
    }
    put_item(b"admitted", s.bytes, true, lines, at)
}

// Enters the disk of these records.
fn enter_disk(f: Filled, input: &[u8], lines: &mut [u8]) -> Filled {
    let e = enter(f.cabinet, input);
    let w = put_answer(e.size, lines, f.end);
    Filled {
        cabinet: e.cabinet,
        end: w.end,
    }
}

// Reads the records of the file at a path, and enters their disk.
fn enter_path(
    rt: &HostRuntime,
    f: Filled,
    path: &[u8],
    lines: &mut [u8],
) -> std::io::Result<Filled> {
    let mut file = open_read(rt, path)?;
    let mut input = request::input_buffer();
    let n = read_stream(&mut file, &mut input)?;
    Ok(enter_disk(f, &input[..n], lines))
}

// Enters the disk of the file that the word of this index names, or says that it can't be read.
fn enter_file(rt: &HostRuntime, f: Filled, i: usize, lines: &mut [u8]) -> Result<Filled, Failed> {
    let mut word = io::buffer();
    let n = take_word(rt, i, &mut word);
    enter_path(rt, f, &word[..n], lines).map_err(|error| {
        say_failed(&word[..n], Some(error));
        Failed::File
    })
}

// Enters the disks of all files and prints what they are answered; nothing where a file can't be read.
fn enter_files(rt: &HostRuntime, c: Cabinet) -> Result<(), Failed> {
    let mut lines = io::buffer();
    let mut f = Filled { cabinet: c, end: 0 };
    for i in FILES..word_count(rt) {
        f = enter_file(rt, f, i, &mut lines)?;
    }
    let w = put_item(b"left", left_of(f.cabinet), true, &mut lines, f.end);
    write_line(rt, w, &lines)?;
    Ok(())
}

// Answers, unless the words are wrong or a call failed; 41 before any file is looked at.
pub(crate) fn answer(rt: &HostRuntime) -> Result<(), Failed> {
    let area = size(rt, AREA)?;
    let files = word_count(rt).saturating_sub(FILES) as u64;
    let c = list_cabinet::open(files, area);
    let number = list_cabinet::number_of(c);
    if number != 0 {
        say_refused(rt, number)?;
        return Ok(());
    }
    enter_files(rt, c)
}
