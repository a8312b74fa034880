// Runs the CRC vectors of RFC 3720, B.4: for each its name, the checksum, and the checksum's bytes as they go over the wire.
#![tactic(auto)]

use crc::crc32c;
use program_calls::STDOUT_FILENO;
use std::array;

fn rising() -> [u8; 32] {
    array::from_fn(|i| i as u8)
}

fn falling() -> [u8; 32] {
    array::from_fn(|i| 31 - i as u8)
}

// An iSCSI read command.
fn command() -> [u8; 48] {
    [
        0x01, 0xc0, 0, 0, 0, 0, 0, 0, 0, 0, 0, 0, 0, 0, 0, 0, 0x14, 0, 0, 0, 0, 0, 0x04, 0, 0, 0,
        0, 0x14, 0, 0, 0, 0x18, 0x28, 0, 0, 0, 0, 0, 0, 0, 0x02, 0, 0, 0, 0, 0, 0, 0,
    ]
}

// The checksum's bytes on the wire, as one number: the lowest byte goes first.
fn wire(sum: u32) -> u32 {
    let mut bytes = [0u8; 4];
    endian_little::put_le32(&mut bytes, 0, sum);
    let r = endian::be32(&bytes, 0);
    r.value
}

fn print_sum(sum: u32) {
    io::write_all(STDOUT_FILENO, b" ");
    io::print_hex(STDOUT_FILENO, sum as u64, 8);
}

fn show(name: &[u8], sum: u32) {
    io::write_all(STDOUT_FILENO, name);
    print_sum(sum);
    print_sum(wire(sum));
    io::write_all(STDOUT_FILENO, b"\n");
}

fn main() {
    show(b"zeros", crc32c(&[0; 32]));
    show(b"ones", crc32c(&[0xff; 32]));
    show(b"rising", crc32c(&rising()));
    show(b"falling", crc32c(&falling()));
    show(b"command", crc32c(&command()));
}
