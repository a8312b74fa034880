// What is said of a disk in words, on standard error.
use crate::Stop;
use endian::{be16, be32};
use geometry::Geometry;
use params::Features;
use program_calls::{STDERR_FILENO, say_failed};
use reader_agreement::{Agreement, agreed_at};
use reader_pass::Verdict;

fn say(text: &[u8]) {
    io::write_all(STDERR_FILENO, text);
}

fn say_number(text: &[u8], n: u64) {
    say(text);
    io::print_decimal(STDERR_FILENO, n);
}

fn say_short(uuid: &[u8], at: usize) {
    let n = be16(uuid, at);
    io::print_hex(STDERR_FILENO, n.value as u64, 4);
}

fn say_long(uuid: &[u8], at: usize) {
    let n = be32(uuid, at);
    io::print_hex(STDERR_FILENO, n.value as u64, 8);
}

// The UUID in its usual five groups.
fn say_uuid(uuid: &[u8]) {
    say_long(uuid, 0);
    say(b"-");
    say_short(uuid, 4);
    say(b"-");
    say_short(uuid, 6);
    say(b"-");
    say_short(uuid, 8);
    say(b"-");
    say_short(uuid, 10);
    say_long(uuid, 12);
}

// The bytes from `start` on.
fn say_from(text: &[u8], start: usize) {
    if let Some(behind) = text.get(start..) {
        say(behind);
    }
}

fn say_label(label: [u8; 12]) {
    let text = label_text::text_of(label);
    let bytes = text.bytes;
    say(b", label \"");
    say_from(&bytes, text.start);
    say(b"\"");
}

fn say_sizes(g: Geometry) {
    say_number(b"\nbytes: block ", g.blocksize as u64);
    say_number(b", sector ", g.sectsize as u64);
    say_number(b", inode ", g.inodesize as u64);
}

fn say_blocks(g: Geometry) {
    say_number(b"\nblocks: ", g.dblocks);
    say_number(b" in ", g.agcount);
    say_number(b" groups of ", g.agsize);
    say_number(b", log ", g.logblocks);
    say(b"\n");
}

fn say_feature(on: bool, name: &[u8]) {
    if on {
        say(b" ");
        say(name);
    }
}

// The features that are on, by the names that mkrequest takes.
fn say_features(f: Features) {
    say(b"features:");
    say_feature(f.finobt, b"finobt");
    say_feature(f.rmapbt, b"rmapbt");
    say_feature(f.reflink, b"reflink");
    say_feature(f.inobtcount, b"inobtcount");
    say_feature(f.bigtime, b"bigtime");
    say_feature(f.nrext64, b"nrext64");
    say_feature(f.sparse, b"sparse");
    say(b"\n");
}

// The sizing of the log: plain also where a roomy run leaves the same log.
fn say_sizing(roomy: bool) {
    if roomy {
        say(b"log sizing: roomy\n");
        return;
    }
    say(b"log sizing: plain\n");
}

// An accepted disk: UUID, label, sizes, imaxpct, features and the sizing of its log.
pub(crate) fn say_disk(g: Geometry, uuid: [u8; 16]) {
    let label = g.label;
    say(b"uuid ");
    say_uuid(&uuid);
    say_label(label);
    say_sizes(g);
    say_blocks(g);
    say_number(b"imaxpct: ", g.imaxpct as u64);
    say(b"\n");
    say_features(g.features);
    say_sizing(g.roomy);
}

// A place: the head of a group, or behind the last group the log.
pub(crate) fn say_place(k: u64, agcount: u64) {
    if 0 < k && agcount <= k {
        say(b"the log's first block");
        return;
    }
    say_number(b"head of group ", k);
}

// Why the reading stopped.
pub(crate) fn say_stop(stop: Stop) {
    match stop {
        Stop::Ended => say(b": the file ends before it\n"),
        Stop::ReadFailed(error) => say_failed(b": read", Some(error)),
        Stop::WriteFailed(error) => say_failed(b": standard output", error),
    }
}

// The first byte that differs from what a run leaves in the place at this offset, if that is known.
fn say_differs(a: Agreement, offset: u64, length: usize) {
    if a.known && a.count < length {
        say_number(
            b"; they differ from offset ",
            std::num::wrapping_add_u64(offset, a.count as u64),
        );
        say(b" on");
    }
}

// A disk that a run leaves, but none under the profile.
pub(crate) fn say_outside() {
    say(b"an accepted disk, but outside the scan station profile\n");
}

// A refused place, whose bytes stand at this offset.
pub(crate) fn say_refused(v: Verdict, offset: u64, bytes: &[u8]) {
    let g = v.geometry;
    say_place(v.place, g.agcount);
    say(b": no accepted run leaves these bytes here");
    say_differs(agreed_at(v, bytes), offset, bytes.len());
    say(b"\n");
}
