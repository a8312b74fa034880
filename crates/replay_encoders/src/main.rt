// Answers cases of the checksum and of the encoders from standard input (replay_frames has the frames): the number, and the lent bytes as
// they are left. oracle/compare asks it through a pipe. `stdin` and `stdout` hold cases from seeds and what the Rust answers to them (26,
// 27, 34 and 35, which the Rust doesn't know, are the scope's); they were written by
//
//     oracle/record encoders
#![tactic(auto)]

use crate::cases::Answer;
use crate::groups::{agf, agfl, agi, leaf, superblock};
use crate::inodes::{
    clear_sunit, decode_time, dinode, first_record, free_inode, lsn, record, root_chunk, sf_dir,
    time,
};
use crate::lists::{alloc_recs, inobt_recs, rmap_recs};
use crate::slices::{alloc_slice, rmap_slice};
use crate::sums::{cksum, crc32c, stamp, verify};
use replay_frames::Form;

pub mod cases; // parameters by their place
pub mod groups; // group headers, leaf block, superblock
pub mod inodes; // inodes, times, root chunk, log
pub mod lists; // record lists over arrays of 64
pub mod slices; // record lists over lent slices
pub mod sums; // the checksum

// The functions, by family: each family's first number is a multiple of 8.
fn answer(function: u8, p: &[u8], lent: &mut [u8]) -> Answer {
    match function {
        0 => agf(p, lent).into(),
        1 => agi(p, lent).into(),
        2 => agfl(p, lent).into(),
        3 => leaf(p, lent).into(),
        4 => superblock(p, lent).into(),
        8 => dinode(p, lent).into(),
        9 => free_inode(p, lent).into(),
        10 => time(p, lent).into(),
        11 => decode_time(p, lent).into(),
        12 => sf_dir(p, lent),
        13 => root_chunk(p, lent),
        16 => record(p, lent).into(),
        17 => first_record(p, lent).into(),
        18 => clear_sunit(p, lent).into(),
        19 => lsn(p, lent).into(),
        24 => alloc_recs(p, lent).into(),
        25 => inobt_recs(p, false, lent).into(),
        26 => inobt_recs(p, true, lent).into(),
        27 => rmap_recs(p, lent).into(),
        28 => alloc_slice(p, lent).into(),
        29 => rmap_slice(p, lent).into(),
        32 => crc32c(lent),
        33 => cksum(p, lent),
        34 => stamp(p, lent),
        35 => verify(p, lent),
        _ => refusals::MALFORMED.into(),
    }
}

// Answers a case of these parameters and lent bytes.
fn reply(form: Form, function: u8, p: &[u8], lent: &mut [u8]) -> bool {
    let a = answer(function, p, lent);
    replay_frames::say(form, a.number, a.value, lent)
}

// Answers the next case; false where there is none.
fn turn() -> bool {
    let mut params = [0u8; 40960];
    let mut body = [0u8; 270336];
    match replay_frames::next(&mut params, &mut body) {
        Some((case, body)) => reply(case.form, case.function, case.params, body),
        None => false,
    }
}

// A proved loop has to end, so its turns are as many as no input uses up.
fn main() {
    for _ in 0..u64::MAX {
        if !turn() {
            return;
        }
    }
}
