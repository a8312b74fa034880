// Answers cases of the reader and of writelist from standard input (replay_frames has the frames). oracle/compare asks it through a pipe.
// `stdin` and `stdout` hold cases from seeds and what the Rust leaves and writes (24, 26, 28 and 30, which the Rust doesn't know, are the
// scope's); they were written by
//
//     oracle/record disks
#![tactic(auto)]

use crate::lists::list;
use reader::{read_group, read_group0, read_log};
use reader_exact::Found;
use replay_frames::{Form, long, word};

pub mod lists; // written records

// The function that reads group 0's head, by which other heads and the log's first block are read.
const GROUP_0: u8 = 0;

// The bytes of a head of the small disk, and of its places in a row.
const HEAD: usize = 8192;

const PLACES: usize = 25600;

// The numbers that an answer has of group 0's head.
fn numbers_of(f: Found) -> [u64; 12] {
    let g = f.geometry;
    let plan = f.plan;
    let free = plan.free;
    let agfl = plan.agfl;
    let rmap = plan.rmap;
    [
        u64::from(g.blocksize),
        u64::from(g.sectsize),
        u64::from(g.inodesize),
        g.dblocks,
        g.agsize,
        g.agcount,
        g.logblocks,
        g.logagno,
        plan.length,
        free.len as u64,
        agfl.len as u64,
        rmap.len as u64,
    ]
}

// A row of numbers, 8 bytes each.
fn row_of(numbers: &[u64; 12]) -> [u8; 96] {
    let mut row = [0u8; 96];
    for (place, number) in row.chunks_mut(8).zip(numbers) {
        endian::put64(place, 0, *number);
    }
    row
}

// Reads group 0's head: its number, block, sector and inode size, blocks, agsize, groups, the log's blocks and group, and of the plan its
// length and how many free records, free-list blocks and reverse mappings there are.
fn first(form: Form, head: &[u8]) -> Found {
    let f = read_group0(head);
    replay_frames::say(form, f.number, 0, &row_of(&numbers_of(f)));
    f
}

// The number of a group's head (the parameter is its number, 8 bytes), read with what group 0's head gave; where that was refused, its
// number.
fn group(found: Found, agno: u64, head: &[u8]) -> u32 {
    if found.number != 0 {
        return found.number;
    }
    let geometry = found.geometry;
    let uuid = found.uuid;
    let read = read_group(geometry, uuid, agno, head);
    read.number
}

// The number of the log's first block, likewise.
fn log_block(found: Found, block: &[u8]) -> u32 {
    if found.number != 0 {
        return found.number;
    }
    let geometry = found.geometry;
    let uuid = found.uuid;
    read_log(geometry, uuid, block)
}

// The number of the small disk's place that holds a byte: three heads, and the log's first block.
fn number_at(disk: &[u8], at: usize) -> u32 {
    if disk.len() != PLACES {
        return 0;
    }
    let found = read_group0(&disk[0..8192]);
    match at / HEAD {
        0 => found.number,
        1 => group(found, 1, &disk[8192..16384]),
        2 => group(found, 2, &disk[16384..24576]),
        _ => log_block(found, &disk[24576..25600]),
    }
}

// Puts a byte, and says which one stood there.
fn put(disk: &mut [u8; 25600], at: usize, value: u8) -> u8 {
    if PLACES <= at {
        return 0;
    }
    std::mem::replace(&mut disk[at], value)
}

// Puts a byte at an offset (4 bytes, and 4 for the byte): the number of its place, and as the value the number after the old byte was put
// back.
fn change(form: Form, p: &[u8], disk: &mut [u8; 25600]) {
    let at = word(p, 0) as usize;
    let old = put(disk, at, (word(p, 4) % 256) as u8);
    let number = number_at(disk, at);
    put(disk, at, old);
    replay_frames::say(form, number, number_at(disk, at) as u64, b"");
}

// The cases that keep nothing but the small disk.
fn other(function: u8, form: Form, found: Found, p: &[u8], body: &[u8], disk: &mut [u8; 25600]) {
    let number = match function {
        1 => group(found, long(p, 0), body),
        2 => log_block(found, body),
        3 => endian::put_bytes(disk, 0, body),
        4 => return change(form, p, disk),
        5 => return list(form, body),
        _ => refusals::MALFORMED,
    };
    replay_frames::say(form, number, 0, b"");
}

// Answers a case of these parameters and body, and says what is kept of group 0's head.
fn reply(
    function: u8,
    form: Form,
    found: Found,
    p: &[u8],
    body: &[u8],
    disk: &mut [u8; 25600],
) -> Found {
    if function == GROUP_0 {
        return first(form, body);
    }
    other(function, form, found, p, body, disk);
    found
}

// Answers the next case; none where there is none.
fn turn(found: Found, disk: &mut [u8; 25600]) -> Option<Found> {
    let mut params = [0u8; 64];
    let mut body = [0u8; 270336];
    let (case, body) = replay_frames::next(&mut params, &mut body)?;
    Some(reply(case.function, case.form, found, case.params, body, disk))
}

// A proved loop has to end, so its turns are as many as no input uses up. Before the first case no head was read.
fn replay(disk: &mut [u8; 25600]) {
    let mut found = read_group0(b"");
    for _ in 0..u64::MAX {
        let Some(next) = turn(found, disk) else {
            return;
        };
        found = next;
    }
}

fn main() {
    let mut disk = [0u8; 25600];
    replay(&mut disk);
}
