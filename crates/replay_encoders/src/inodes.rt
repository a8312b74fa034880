// Inodes, times, the root chunk and the log.
use crate::cases::{Answer, byte, bytes_at, geometry_of, half, time_at};
use inode::Dinode;
use replay_frames::{long, word};

// The fields in their own order (a time has 12 bytes), UUID, and the data.
pub(crate) fn dinode(p: &[u8], slot: &mut [u8]) -> u32 {
    let uuid = bytes_at(p, 93);
    let Some(bytes) = p.get(109..) else {
        return refusals::MALFORMED;
    };
    let atime = time_at(p, 45);
    let mtime = time_at(p, 57);
    let ctime = time_at(p, 69);
    let crtime = time_at(p, 81);
    let d = Dinode {
        ino: long(p, 0),
        mode: half(p, 8),
        format: byte(p, 10),
        nlink: word(p, 11),
        size: long(p, 15),
        flags: half(p, 23),
        flags2: long(p, 25),
        generation: word(p, 33),
        changecount: long(p, 37),
        atime,
        mtime,
        ctime,
        crtime,
    };
    let made = d.encode(bytes, &uuid, slot);
    made.number
}

// ino (8), generation, UUID.
pub(crate) fn free_inode(p: &[u8], slot: &mut [u8]) -> u32 {
    let uuid = bytes_at(p, 12);
    let made = inode::encode_free(long(p, 0), word(p, 8), &uuid, slot);
    made.number
}

// bigtime (1), a time. What is stored goes into the lent bytes.
pub(crate) fn time(p: &[u8], out: &mut [u8]) -> u32 {
    let t = time_at(p, 1);
    let stored = inode_time::encode_time(t, byte(p, 0) == 1);
    endian::put64(out, 0, stored.value);
    stored.number
}

// The most seconds from −2^31 on that an inode has.
const MOST_SECONDS: u64 = 18446744073;

// The seconds from −2^31 on; 0 of seconds that no inode has.
fn from_least(secs: i64) -> u64 {
    let n = secs.cast_unsigned().wrapping_add(1 << 31);
    if n <= MOST_SECONDS { n } else { 0 }
}

// bigtime (1), a stored time (8), whose seconds (8) and nanoseconds (4) go into the lent bytes.
pub(crate) fn decode_time(p: &[u8], out: &mut [u8]) -> u32 {
    let t = inode_time::decode_time(long(p, 1), byte(p, 0) == 1);
    endian::put64(out, 0, from_least(t.secs));
    endian::put32(out, 8, t.nsecs);
    0
}

// The parent's inode number (8). The value says how many of the ten bytes the directory has.
pub(crate) fn sf_dir(p: &[u8], out: &mut [u8]) -> Answer {
    let dir = inode::empty_sf_dir(long(p, 0));
    let bytes = dir.bytes;
    endian::put_bytes(out, 0, &bytes);
    Answer {
        number: 0,
        value: dir.len as u64,
    }
}

// The geometry, then the first block (8), UUID, time, and the generator's state (8). The value is the state after the draws.
pub(crate) fn root_chunk(p: &[u8], buf: &mut [u8]) -> Answer {
    let g = geometry_of(p);
    let uuid = bytes_at(p, 228);
    let time = time_at(p, 244);
    let made = chunk::root_chunk(g, long(p, 220), &uuid, time, long(p, 256), buf);
    Answer {
        number: made.number,
        value: made.state,
    }
}

// UUID, stripe unit, a number that isn't looked at (4), lsn and tail (8 each).
pub(crate) fn record(p: &[u8], rec: &mut [u8]) -> u32 {
    let uuid = bytes_at(p, 0);
    log_record::record(&uuid, word(p, 16), long(p, 24), long(p, 32), rec)
}

pub(crate) fn first_record(p: &[u8], rec: &mut [u8]) -> u32 {
    let uuid = bytes_at(p, 0);
    log_record::first_record(&uuid, word(p, 16), rec)
}

// The two numbers behind the UUID; the result goes into the lent bytes.
pub(crate) fn clear_sunit(p: &[u8], out: &mut [u8]) -> u32 {
    endian::put64(
        out,
        0,
        log_record::clear_sunit(word(p, 16), word(p, 20)) as u64,
    );
    0
}

pub(crate) fn lsn(p: &[u8], out: &mut [u8]) -> u32 {
    endian::put64(out, 0, log_record::lsn(word(p, 16), word(p, 20)));
    0
}
