// Reads bytes into a lent buffer until it is full or the input ends: the input loop of the programs.
#![tactic(auto)]

ghost use Rattle.std.specs.Prelude.{◌≡◌, ◌≤◌, nat_lt, length, true};
ghost use Rattle.io.specs.Counts.{IsPrefixLen};

use std::io::{Error, Read};

// How many bytes were read, and why the last read failed, if it did.
#[derive(Clone, Copy)]
pub struct Input {
    pub n: usize,
    pub failed: Option<Error>,
}

// The same, and whether there may be more.
#[derive(Clone, Copy)]
struct Reading {
    n: usize,
    more: bool,
    failed: Option<Error>,
}

// Reads once, behind the first `n` bytes.
fn read_more<R: Read>(input: &mut R, n: usize, buf: &mut [u8]) -> Reading
    requires { n ≤ length buf.old }
    ensures { (n ≤ result.n) × (result.n ≤ length buf.new) × (result.more ≡ nat_lt n result.n) }
{
    match input.read(&mut buf[n..]) {
        Ok(read) => Reading {
            n: n + read,
            more: 0 < read,
            failed: None,
        },
        Err(error) => Reading {
            n,
            more: false,
            failed: Some(error),
        },
    }
}

// Reads on while a read gives a byte and there is room for another. Every turn but the last reads a byte at least.
fn read_on<R: Read>(input: &mut R, buf: &mut [u8]) -> Reading
    ensures { (IsPrefixLen result.n buf.new) × (result.more ≡ true → result.n ≡ length buf.new) }
{
    let mut i = Reading {
        n: 0,
        more: true,
        failed: None,
    };
    while i.more && i.n < buf.len() {
        i = read_more(input, i.n, buf);
    }
    i
}

// Fills the buffer from its start as far as the input goes.
pub fn read_input<R: Read>(input: &mut R, buf: &mut [u8]) -> Input
    ensures { IsPrefixLen result.n buf.new }
{
    let Reading { n, failed, .. } = read_on(input, buf);
    Input { n, failed }
}
