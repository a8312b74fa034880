// A leaf block that is the root of its tree.
ghost use Rattle.std.specs.Prelude.{◌≡◌, [], ◌∷◌, ◌+◌, ◌≤◌, length};
ghost use Rattle.endian.specs.Bytes.{patch};
ghost use Rattle.endian.specs.Fields.{write_fields};
ghost use Rattle.structs.specs.Encoded.{Encoded};
ghost use Rattle.btree.specs.Leaf.{leaf_crc_at, leaf_number, leaf_header, leaf_bytes};

use crc::Stamped;
use structs::is_block;

// Offsets in the header of a leaf block, each under its field's name without bb_; the records start at the last.
pub mod off {
    pub const MAGIC: usize = 0;

    pub const LEVEL: usize = 4;

    pub const NUMRECS: usize = 6;

    pub const LEFTSIB: usize = 8;

    pub const RIGHTSIB: usize = 12;

    pub const BLKNO: usize = 16;

    pub const LSN: usize = 24;

    pub const UUID: usize = 32;

    pub const OWNER: usize = 48;

    pub const CRC: usize = 52;

    pub const RECS: usize = 56;
}

fn put_header(magic: u32, daddr: u64, agno: u32, uuid: &[u8; 16], numrecs: u16, block: &mut [u8])
    requires { 1024 ≤ length block.old }
    ensures { block.new ≡ write_fields (leaf_header magic daddr agno uuid.now numrecs) block.old }
{
    let at: [usize; 16] = [
        off::MAGIC,
        4,
        off::LEVEL,
        2,
        off::NUMRECS,
        2,
        off::LEFTSIB,
        4,
        off::RIGHTSIB,
        4,
        off::BLKNO,
        8,
        off::LSN,
        8,
        off::OWNER,
        4,
    ];
    let v: [u64; 8] = [
        magic as u64, // bb_magic
        0, // bb_level: a leaf
        numrecs as u64, // bb_numrecs
        structs::NULL32 as u64, // bb_leftsib: none
        structs::NULL32 as u64, // bb_rightsib: none
        daddr, // bb_blkno
        0, // bb_lsn
        agno as u64, // bb_owner
    ];
    endian::put_all(block, &at, &v);
    endian::put_bytes(block, off::UUID, uuid);
}

// The records, byte by byte: a copy of any length by the library needs `memmove`, which the archive for C would ask for.
fn put_records(block: &mut [u8], recs: &[u8])
    requires { 56 + length recs.now ≤ length block.old }
    ensures { block.new ≡ patch 56 recs.now block.old }
{
    let mut i = recs.len();
    while 0 < i {
        i -= 1;
        block[off::RECS + i] = recs[i];
    }
}

// The whole block: zeros, the header, the records and the checksum.
fn fill(
    magic: u32,
    daddr: u64,
    agno: u32,
    uuid: &[u8; 16],
    recs: &[u8],
    numrecs: u16,
    block: &mut [u8],
)
    requires { (1024 ≤ length block.old) × (56 + length recs.now ≤ length block.old) }
    ensures { block.new ≡ leaf_bytes magic daddr agno uuid.now recs.now numrecs
        (length block.old) }
{
    endian::put_same(block, 0, block.len(), 0);
    put_header(magic, daddr, agno, uuid, numrecs, block);
    put_records(block, recs);
    crc::stamp(block, off::CRC);
}

// The header, the records, which are encoded already, zeros behind them, and the checksum over the block, and whether that stood there
// already. 27 unless the block is one, 34 where the records don't fit.
pub fn leaf_block(
    magic: u32,
    daddr: u64,
    agno: u32,
    uuid: &[u8; 16],
    recs: &[u8],
    numrecs: u16,
    block: &mut [u8],
) -> Stamped
    ensures { Encoded (leaf_number (length recs.now) (length block.old)) (leaf_crc_at ∷ [])
        (leaf_bytes magic daddr agno uuid.now recs.now numrecs (length block.old)) block.old
        result.number result.right block.new }
{
    if !is_block(block.len()) {
        return Stamped {
            number: refusals::WRONG_LENGTH,
            right: false,
        };
    }
    if !endian::inside(block.len(), off::RECS, recs.len()) {
        return Stamped {
            number: refusals::TOO_MANY_RECORDS,
            right: false,
        };
    }
    let before = crc::stored(block, off::CRC);
    fill(magic, daddr, agno, uuid, recs, numrecs, block);
    let after = crc::stored(block, off::CRC);
    Stamped {
        number: 0,
        right: before == after,
    }
}
