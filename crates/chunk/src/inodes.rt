// The three inodes of the chunk that are in use, each written over its slot.
ghost use Rattle.std.specs.Prelude.{◌≡◌, true, [], ◌+◌, ◌*◌, ◌^◌, ◌≤◌, ◌<◌, length};
ghost use Rattle.endian.specs.Bytes.{patch};
ghost use Rattle.endian.specs.Fields.{part};
ghost use Rattle.structs.specs.Sizes.{is_inode};
ghost use Rattle.inode.specs.Dinode.{time_storable, dinode_bytes};
ghost use Rattle.inode.specs.Directory.{empty_dir};
ghost use Rattle.inode.proofs.Core.{Fit};
ghost use Rattle.chunk.specs.Inodes.{flags_of, root_inode, file_inode};
ghost use Rattle.chunk.specs.Chunk.{root_over, bitmap_over, summary_over};

use crate::slots::put_inode;
use arith::choice::bit_of;
use inode::dinode::{DIFLAG_NEWRTBM, DIFLAG2_BIGTIME, DIFLAG2_NREXT64, format};
use inode::{Dinode, empty_sf_dir};
use params::{Features, Timestamp};

// A directory that all may read and enter, 0o040755; a file that nobody may read, 0o100000.
const DIRECTORY: u16 = 0x41ed;

const FILE: u16 = 0x8000;

// One change for the creation, one for what logged it.
const CHANGES: u64 = 2;

pub(crate) fn flags_of(f: Features) -> u64
    ensures { result ≡ flags_of f }
{
    bit_of(f.bigtime) * DIFLAG2_BIGTIME + bit_of(f.nrext64) * DIFLAG2_NREXT64
}

fn root_inode(first: u64, flags2: u64, size: u64, time: Timestamp) -> Dinode
    requires { size ≡ length (empty_dir first) }
    ensures { result ≡ root_inode first flags2 time }
{
    Dinode {
        ino: first,
        mode: DIRECTORY,
        format: format::LOCAL,
        nlink: 2,
        size,
        flags: 0,
        flags2,
        generation: 0,
        changecount: CHANGES,
        atime: time,
        mtime: time,
        ctime: time,
        crtime: time,
    }
}

fn file_inode(
    ino: u64,
    flags: u16,
    flags2: u64,
    generation: u32,
    atime: Timestamp,
    time: Timestamp,
) -> Dinode
    ensures { result ≡ file_inode ino flags flags2 generation atime time }
{
    Dinode {
        ino,
        mode: FILE,
        format: format::EXTENTS,
        nlink: 1,
        size: 0,
        flags,
        flags2,
        generation,
        changecount: CHANGES,
        atime,
        mtime: time,
        ctime: time,
        crtime: time,
    }
}

// The root directory over slot 0: empty, its own parent.
pub(crate) fn put_root(
    first: u64,
    flags2: u64,
    time: Timestamp,
    uuid: &[u8; 16],
    size: usize,
    buf: &mut [u8],
)
    requires { (is_inode size ≡ true) × (length buf.old ≡ 64 * size) × (time_storable flags2 time ≡ true) }
    ensures { buf.new ≡ patch (0 * size)
        (root_over first flags2 time uuid.now (part (0 * size) size buf.old)) buf.old }
{
    let dir = empty_sf_dir(first);
    let bytes = dir.bytes;
    let n = dir.len;
    let d = root_inode(first, flags2, n as u64, time);
    put_inode(d, &bytes[..n], uuid, size, 0, buf);
}

// A file of no bytes over slot k.
fn put_file(d: Dinode, uuid: &[u8; 16], size: usize, k: usize, buf: &mut [u8])
    requires { (is_inode size ≡ true) × (k * size + size ≤ length buf.old)
        × Fit d.flags2 d.atime d.mtime d.ctime d.crtime }
    ensures { buf.new ≡ patch (k * size) (dinode_bytes d [] uuid.now (part (k * size) size buf.old))
        buf.old }
{
    let none: [u8; 0] = [];
    put_inode(d, &none, uuid, size, k, buf);
}

// The realtime bitmap over slot 1: its access time is a counter, at 0.
pub(crate) fn put_bitmap(
    first: u64,
    flags2: u64,
    generation: u32,
    time: Timestamp,
    uuid: &[u8; 16],
    size: usize,
    buf: &mut [u8],
)
    requires { (is_inode size ≡ true) × (length buf.old ≡ 64 * size) × (first + 64 < 2 ^ 64) × (time_storable flags2 time ≡ true) }
    ensures { buf.new ≡ patch (1 * size)
        (bitmap_over first flags2 generation time uuid.now (part (1 * size) size buf.old)) buf.old }
{
    let none = Timestamp { secs: 0, nsecs: 0 };
    let d = file_inode(first + 1, DIFLAG_NEWRTBM, flags2, generation, none, time);
    put_file(d, uuid, size, 1, buf);
}

// The realtime summary over slot 2.
pub(crate) fn put_summary(
    first: u64,
    flags2: u64,
    generation: u32,
    time: Timestamp,
    uuid: &[u8; 16],
    size: usize,
    buf: &mut [u8],
)
    requires { (is_inode size ≡ true) × (length buf.old ≡ 64 * size) × (first + 64 < 2 ^ 64) × (time_storable flags2 time ≡ true) }
    ensures { buf.new ≡ patch (2 * size)
        (summary_over first flags2 generation time uuid.now (part (2 * size) size buf.old)) buf.old }
{
    let d = file_inode(first + 2, 0, flags2, generation, time, time);
    put_file(d, uuid, size, 2, buf);
}
