// The free list of a group.
ghost use Rattle.std.specs.Prelude.{◌≡◌, [], ◌∷◌, ◌≤◌, length, take, replicate};
ghost use Rattle.endian.specs.Bytes.{patch, numbers_bytes};
ghost use Rattle.endian.specs.Fields.{write_fields};
ghost use Rattle.structs.specs.Written.{null32};
ghost use Rattle.structs.specs.Encoded.{Encoded};
ghost use Rattle.ag.specs.Agfl.{agfl_crc_at, placed, slots_of, agfl_number, agfl_bytes, agfl_header};

use crc::Stamped;
use structs::is_sector;

// "XAFL"
pub const AGFL_MAGIC: u64 = 0x5841_464c;

// Offsets in `struct xfs_agfl`, each under its field's name without agfl_; the slots start at the last.
pub mod off {
    pub const MAGICNUM: usize = 0;

    pub const SEQNO: usize = 4;

    pub const UUID: usize = 8;

    pub const LSN: usize = 24;

    pub const CRC: usize = 32;

    pub const BNO: usize = 36;
}

// The first `count` blocks of `list` go into the slots of `sector`, the first into slot `first`, and around at the end.
fn put_slots(sector: &mut [u8], first: u32, list: [u32; 64], count: usize)
    requires { (count ≤ 64) × (512 ≤ length sector.old) }
    ensures { sector.new ≡ patch 36
        (numbers_bytes 4 (placed (slots_of (length sector.old)) first (take count list)
        (replicate (slots_of (length sector.old)) null32))) sector.old }
{
    let slots = (sector.len() - off::BNO) / 4;
    endian::put_same(sector, off::BNO, 4 * slots, 255);
    for (i, block) in list[..count].iter().enumerate() {
        let slot = (first as usize + i) % slots;
        endian::put32(sector, off::BNO + 4 * slot, *block);
    }
}

fn put_header(sector: &mut [u8], seqno: u32, uuid: &[u8; 16])
    requires { 512 ≤ length sector.old }
    ensures { (sector.new ≡ write_fields (agfl_header seqno uuid.now) sector.old)
        × (length uuid.now ≡ 16) }
{
    let at: [usize; 6] = [off::MAGICNUM, 4, off::SEQNO, 4, off::LSN, 8];
    let v: [u64; 3] = [AGFL_MAGIC, seqno as u64, 0]; // agfl_magicnum, agfl_seqno, agfl_lsn
    endian::put_all(sector, &at, &v);
    endian::put_bytes(sector, off::UUID, uuid);
}

// The header, the first `count` blocks of `list` from slot `first` on, and every other slot null, and whether the checksum stood there
// already. 27 unless the sector is one, 34 above 64.
pub fn encode_agfl(
    seqno: u32,
    uuid: &[u8; 16],
    first: u32,
    list: [u32; 64],
    count: usize,
    sector: &mut [u8],
) -> Stamped
    ensures { Encoded (agfl_number count (length sector.old)) (agfl_crc_at ∷ [])
        (agfl_bytes seqno uuid.now first (take count list) sector.old) sector.old result.number result.right
        sector.new }
{
    if !is_sector(sector.len()) {
        return Stamped {
            number: refusals::WRONG_LENGTH,
            right: false,
        };
    }
    if 64 < count {
        return Stamped {
            number: refusals::TOO_MANY_RECORDS,
            right: false,
        };
    }
    put_header(sector, seqno, uuid);
    put_slots(sector, first, list, count);
    crc::stamp(sector, off::CRC)
}
