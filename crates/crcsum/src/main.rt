// Prints the CRC32C of standard input in hexadecimal.
#![tactic(auto)]

use program_calls::{STDERR_FILENO, STDOUT_FILENO, say_failed, word_count};
use std::io::{Read, Result, Write};

// The register behind all of the input. A proved loop has to end, so its turns are as many as no input uses up.
fn whole<R: Read>(input: &mut R, buf: &mut [u8]) -> Result<u32> {
    let mut register = 0xffff_ffff;
    for _ in 0..u64::MAX {
        let n = input.read(buf)?;
        if n == 0 {
            break;
        }
        register = crc_loops::update(register, &buf[..n]);
    }
    Ok(register)
}

// Prints a checksum.
fn print_sum<W: Write>(out: &mut W, sum: u32) -> Result<()> {
    let mut text = [0u8; 16];
    let n = io::hex(sum as u64, 8, &mut text);
    out.write_all(&text[..n])?;
    out.write_all(b"\n")
}

// Reads all of the input and prints its checksum.
fn sum(rt: &HostRuntime) {
    let mut buf = io::large_buffer();
    let register = match whole(&mut rt.stdin(), &mut buf) {
        Ok(register) => register,
        Err(error) => return say_failed(b"standard input", Some(error)),
    };
    if let Err(error) = print_sum(&mut rt.stdout(), !register) {
        say_failed(b"standard output", Some(error));
    }
}

fn usage(fd: i32) {
    io::write_all(fd, b"usage: crcsum < FILE\n");
    io::write_all(fd, b"Prints the CRC32C of its input in hexadecimal.\n");
}

// Whether the first argument is this word.
fn is_word(rt: &HostRuntime, word: &[u8]) -> bool {
    program_calls::is_word(rt, 1, word)
}

fn main(rt: HostRuntime) {
    if is_word(&rt, b"--help") {
        usage(STDOUT_FILENO);
        return;
    }
    if word_count(&rt) != 1 {
        usage(STDERR_FILENO);
        return;
    }
    sum(&rt);
}
