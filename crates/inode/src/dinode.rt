// An inode on disk: `struct xfs_dinode` of version 3, and the data fork behind it.
ghost use Rattle.std.specs.Prelude.{◌≡◌, ◌&&◌, [], ◌∷◌, ◌+◌, ◌≤◌, leb, eqb, length};
ghost use Rattle.endian.specs.Fields.{write_fields};
ghost use Rattle.structs.specs.Sizes.{is_inode};
ghost use Rattle.structs.specs.Encoded.{Encoded};
ghost use Rattle.inode.specs.Dinode.{inode_crc_at, is_big, or_else, TimesAs, core_fields, dinode_number, dinode_bytes, free_number, free_bytes};

use crc::Stamped;
use inode_time::encode_time;
use params::Timestamp;
use structs::is_inode;

// "IN"
pub const MAGIC: u64 = 0x494e;

// The version of the inode, and the format of a fork of extents, as numbers of the table.
const VERSION: u64 = 3;

const EXTENTS: u64 = 2;

// No next unlinked inode: `structs::NULL32`, at the width of the table's numbers.
const NO_INODE: u64 = 0xffff_ffff;

// The size of the inode core, in bytes; the data fork starts behind it.
pub const CORE_SIZE: usize = 176;

// Offsets in `struct xfs_dinode`, each under its field's name without di_.
pub mod off {
    pub const MAGIC: usize = 0;

    pub const MODE: usize = 2;

    pub const VERSION: usize = 4;

    pub const FORMAT: usize = 5;

    pub const NLINK: usize = 16;

    pub const ATIME: usize = 32;

    pub const MTIME: usize = 40;

    pub const CTIME: usize = 48;

    pub const SIZE: usize = 56;

    pub const FORKOFF: usize = 82;

    pub const AFORMAT: usize = 83;

    pub const FLAGS: usize = 90;

    pub const GEN: usize = 92;

    pub const NEXT_UNLINKED: usize = 96;

    pub const CRC: usize = 100;

    pub const CHANGECOUNT: usize = 104;

    pub const FLAGS2: usize = 120;

    pub const CRTIME: usize = 144;

    pub const INO: usize = 152;

    pub const UUID: usize = 160;
}

// The formats of a fork.
pub mod format {
    pub const LOCAL: u8 = 1;

    pub const EXTENTS: u8 = 2;
}

// The bitmap inode's access time is a counter.
pub const DIFLAG_NEWRTBM: u16 = 4;

// Times count nanoseconds; extent counts have 64 bits.
pub const DIFLAG2_BIGTIME: u64 = 8;

pub const DIFLAG2_NREXT64: u64 = 16;

// An allocated inode without an attribute fork; its data stands apart.
#[derive(Clone, Copy)]
pub struct Dinode {
    pub ino: u64,
    pub mode: u16,
    pub format: u8,
    pub nlink: u32,
    pub size: u64,
    pub flags: u16,
    pub flags2: u64,
    pub generation: u32,
    pub changecount: u64,
    pub atime: Timestamp,
    pub mtime: Timestamp,
    pub ctime: Timestamp,
    pub crtime: Timestamp,
}

// The four times as they are stored; `number` is 0, or 26 where one is out of range.
#[derive(Clone, Copy)]
struct Times {
    number: u32,
    atime: u64,
    mtime: u64,
    ctime: u64,
    crtime: u64,
}

fn is_big(flags2: u64) -> bool
    ensures { result ≡ is_big flags2 }
{
    flags2 / DIFLAG2_BIGTIME % 2 == 1
}

// The first number unless it is 0, then the other.
fn or_else(a: u32, b: u32) -> u32
    ensures { result ≡ or_else (eqb a 0) a b }
{
    if a == 0 { b } else { a }
}

fn encode_times(
    flags2: u64,
    atime: Timestamp,
    mtime: Timestamp,
    ctime: Timestamp,
    crtime: Timestamp,
) -> Times
    ensures { TimesAs flags2 atime mtime ctime crtime result.number result.atime result.mtime result.ctime result.crtime }
{
    let big = is_big(flags2);
    let a = encode_time(atime, big);
    let m = encode_time(mtime, big);
    let c = encode_time(ctime, big);
    let r = encode_time(crtime, big);
    Times {
        number: or_else(a.number, or_else(m.number, or_else(c.number, r.number))),
        atime: a.value,
        mtime: m.value,
        ctime: c.value,
        crtime: r.value,
    }
}

// Whether a slot of `len` bytes is an inode with room for `used` bytes of data.
fn has_room(len: usize, used: usize) -> bool
    ensures { result ≡ (is_inode len && leb (176 + used) len) }
{
    is_inode(len) && endian::inside(len, CORE_SIZE, used)
}

// The numbers of the core. A fork offset of 0 and the format of extents say that there is no attribute fork.
fn put_core(
    slot: &mut [u8],
    mode: u16,
    format: u8,
    nlink: u32,
    size: u64,
    flags: u16,
    generation: u32,
    changecount: u64,
    flags2: u64,
    ino: u64,
    t: Times,
)
    requires { 512 ≤ length slot.old }
    ensures { slot.new ≡ write_fields
        (core_fields mode format nlink t.atime t.mtime t.ctime size flags generation changecount flags2 t.crtime ino)
        slot.old }
{
    let at: [usize; 36] = [
        off::MAGIC,
        2,
        off::MODE,
        2,
        off::VERSION,
        1,
        off::FORMAT,
        1,
        off::NLINK,
        4,
        off::ATIME,
        8,
        off::MTIME,
        8,
        off::CTIME,
        8,
        off::SIZE,
        8,
        off::FORKOFF,
        1,
        off::AFORMAT,
        1,
        off::FLAGS,
        2,
        off::GEN,
        4,
        off::NEXT_UNLINKED,
        4,
        off::CHANGECOUNT,
        8,
        off::FLAGS2,
        8,
        off::CRTIME,
        8,
        off::INO,
        8,
    ];
    let v: [u64; 18] = [
        MAGIC, // di_magic
        mode as u64, // di_mode
        VERSION, // di_version
        format as u64, // di_format
        nlink as u64, // di_nlink
        t.atime, // di_atime
        t.mtime, // di_mtime
        t.ctime, // di_ctime
        size, // di_size
        0, // di_forkoff: no attribute fork
        EXTENTS, // di_aformat
        flags as u64, // di_flags
        generation as u64, // di_gen
        NO_INODE, // di_next_unlinked
        changecount, // di_changecount
        flags2, // di_flags2
        t.crtime, // di_crtime
        ino, // di_ino
    ];
    endian::put_all(slot, &at, &v);
}

impl Dinode {
    // The named bytes, the data fork, and the checksum over the slot, and whether that stood there already; every other byte stays. 26
    // where a time is out of range, 27 unless the slot is an inode with room for the data.
    pub fn encode(self, data: &[u8], uuid: &[u8; 16], slot: &mut [u8]) -> Stamped
        ensures { Encoded (dinode_number self (length «data».now) (length slot.old)) (inode_crc_at ∷ [])
            (dinode_bytes self «data».now uuid.now slot.old) slot.old result.number result.right
            slot.new }
    {
        let atime = self.atime;
        let mtime = self.mtime;
        let ctime = self.ctime;
        let crtime = self.crtime;
        let t = encode_times(self.flags2, atime, mtime, ctime, crtime);
        let n = t.number;
        if n != 0 {
            return Stamped {
                number: n,
                right: false,
            };
        }
        if !has_room(slot.len(), data.len()) {
            return Stamped {
                number: refusals::WRONG_LENGTH,
                right: false,
            };
        }
        put_core(
            slot,
            self.mode,
            self.format,
            self.nlink,
            self.size,
            self.flags,
            self.generation,
            self.changecount,
            self.flags2,
            self.ino,
            t,
        );
        endian::put_bytes(slot, off::UUID, uuid);
        endian::put_bytes(slot, CORE_SIZE, data);
        crc::stamp(slot, off::CRC)
    }
}

// An inode that was never allocated: magic, version, generation, no next unlinked inode, its number and the UUID, and whether the
// checksum stood there already.
pub fn encode_free(ino: u64, generation: u32, uuid: &[u8; 16], slot: &mut [u8]) -> Stamped
    ensures { Encoded (free_number (length slot.old)) (inode_crc_at ∷ [])
        (free_bytes ino generation uuid.now slot.old) slot.old result.number result.right slot.new }
{
    if !is_inode(slot.len()) {
        return Stamped {
            number: refusals::WRONG_LENGTH,
            right: false,
        };
    }
    let at: [usize; 10] = [
        off::MAGIC,
        2,
        off::VERSION,
        1,
        off::GEN,
        4,
        off::NEXT_UNLINKED,
        4,
        off::INO,
        8,
    ];
    // di_magic, di_version, di_gen, di_next_unlinked, di_ino
    let v: [u64; 5] = [MAGIC, VERSION, generation as u64, NO_INODE, ino];
    endian::put_all(slot, &at, &v);
    endian::put_bytes(slot, off::UUID, uuid);
    crc::stamp(slot, off::CRC)
}
