// Calls encoders again on what they left, and prints what each answers of the checksums: its number, and whether they stood there already.
// The head and the root chunk are those of the disk that the input records on standard input ask for.
#![tactic(auto)]

ghost use Rattle.std.specs.Prelude.{◌≡◌, length};

use btree::leaf_block;
use chunk::root_chunk;
use crc::stamp;
use geometry_counts::inodes::root_chunk_of;
use group_bytes::{head_left, head_length};
use program_calls::STDOUT_FILENO;
use run::Run;

// Of a disk with sectors of 512 bytes, blocks of 4096 and inodes of 512: the checksums of the head's free list and of its last root, and
// those of the chunk's first and last inode.
const LIST_CRC: usize = 1568;

const ROOT_CRC: usize = 24628;

const FIRST_CRC: usize = 100;

const LAST_CRC: usize = 32356;

fn show(name: &[u8], number: u32, right: bool) {
    io::write_all(STDOUT_FILENO, name);
    io::write_all(STDOUT_FILENO, b": ");
    io::print_decimal(STDOUT_FILENO, number as u64);
    if right {
        io::write_all(STDOUT_FILENO, b" yes\n");
    } else {
        io::write_all(STDOUT_FILENO, b" no\n");
    }
}

fn stamp_again(name: &[u8], buf: &mut [u8]) {
    let made = stamp(buf, 4);
    show(name, made.number, made.right);
}

fn leaf_again(name: &[u8], recs: &[u8], block: &mut [u8]) {
    let uuid = [7u8; 16];
    let made = leaf_block(btree::magic::BNO, 8, 0, &uuid, recs, 1, block);
    show(name, made.number, made.right);
}

fn head_again(name: &[u8], run: Run, head: &mut [u8]) {
    let g = run.geometry;
    let uuid = run.uuid;
    let made = head_left(g, uuid, 0, head);
    show(name, made.number, made.right);
}

fn chunk_again(name: &[u8], run: Run, buf: &mut [u8]) {
    let g = run.geometry;
    let uuid = run.uuid;
    let at = root_chunk_of(g.features, g.sectsize, g.inodesize, g.blocksize as u64);
    let made = root_chunk(g, at, &uuid, run.time, run.seed, buf);
    show(name, made.number, made.right);
}

// A byte that differs from what stands there.
fn spoil(buf: &mut [u8], at: usize) {
    if at < buf.len() {
        buf[at] ^= 1;
    }
}

fn stamps() {
    let mut buf = [0u8; 16];
    stamp_again(b"stamp of zeros", &mut buf);
    stamp_again(b"stamp again", &mut buf);
    spoil(&mut buf, 0);
    stamp_again(b"stamp of another byte", &mut buf);
    let mut short = [0u8; 7];
    stamp_again(b"stamp of seven bytes", &mut short);
}

fn leaves() {
    let mut block = [0u8; 1024];
    leaf_again(b"leaf of zeros", b"record", &mut block);
    leaf_again(b"leaf again", b"record", &mut block);
    spoil(&mut block, 0);
    leaf_again(b"leaf with another byte", b"record", &mut block);
    leaf_again(b"leaf with another record", b"reader", &mut block);
    spoil(&mut block, btree::leaf::off::CRC);
    leaf_again(b"leaf with another checksum", b"reader", &mut block);
    let many = [1u8; 1000];
    leaf_again(b"leaf without room", &many, &mut block);
}

fn heads(run: Run, head: &mut [u8]) {
    head_again(b"head of zeros", run, head);
    head_again(b"head again", run, head);
    spoil(head, 0);
    head_again(b"head with another byte", run, head);
    spoil(head, LIST_CRC);
    head_again(b"head with another checksum in its free list", run, head);
    spoil(head, ROOT_CRC);
    head_again(b"head with another checksum in its last root", run, head);
}

fn chunks(run: Run, buf: &mut [u8]) {
    chunk_again(b"chunk of zeros", run, buf);
    chunk_again(b"chunk again", run, buf);
    spoil(buf, 0);
    chunk_again(b"chunk with another byte", run, buf);
    spoil(buf, FIRST_CRC);
    chunk_again(b"chunk with another checksum in its first inode", run, buf);
    spoil(buf, LAST_CRC);
    chunk_again(b"chunk with another checksum in its last inode", run, buf);
}

// The head and the chunk, in as many bytes as they have.
fn some_heads(run: Run, buf: &mut [u8]) {
    let g = run.geometry;
    let n = head_length(g.features, g.sectsize, g.blocksize);
    if n <= buf.len() {
        heads(run, &mut buf[0..n]);
    }
}

fn some_chunks(run: Run, buf: &mut [u8]) {
    let g = run.geometry;
    let n = chunk::slots::INODES * (g.inodesize as usize);
    if n <= buf.len() {
        chunks(run, &mut buf[0..n]);
    }
}

fn disk(run: Run) {
    let mut head = io::large_buffer();
    some_heads(run, &mut head);
    let mut none = [0u8; 0];
    head_again(b"head of no bytes", run, &mut none);
    let mut buf = io::large_buffer();
    some_chunks(run, &mut buf);
    chunk_again(b"chunk of no bytes", run, &mut none);
}

fn main(rt: HostRuntime) {
    stamps();
    leaves();
    let mut input = request::input_buffer();
    let i = input_bytes::read_input(&mut rt.stdin(), &mut input);
    let n = i.n;
    disk(run::accept(&input[..n]));
}
