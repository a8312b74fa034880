// The free space header of a group.
ghost use Rattle.std.specs.Prelude.{[], ◌∷◌, length};
ghost use Rattle.structs.specs.Encoded.{Encoded};
ghost use Rattle.ag.specs.Sector.{sector_number};
ghost use Rattle.ag.specs.Agf.{agf_crc_at, agf_bytes};

use crc::Stamped;
use structs::is_sector;

// "XAGF"
pub const AGF_MAGIC: u32 = 0x5841_4746;

// The offsets of the UUID, of the numbers behind it, of the log sequence number and of the checksum.
pub const UUID: usize = 64;

pub const RMAP_BLOCKS: usize = 80;

pub const LSN: usize = 208;

pub const CRC: usize = 216;

// Everything in an AGF: the group's number and length, the roots, levels and blocks of its trees, the slots of the free list in use, and
// the free blocks.
#[derive(Clone, Copy)]
pub struct Agf {
    pub seqno: u32,
    pub length: u32,
    pub bno_root: u32,
    pub bno_level: u32,
    pub cnt_root: u32,
    pub cnt_level: u32,
    pub rmap_root: u32,
    pub rmap_level: u32,
    pub rmap_blocks: u32,
    pub refcount_root: u32,
    pub refcount_level: u32,
    pub refcount_blocks: u32,
    pub flfirst: u32,
    pub fllast: u32,
    pub flcount: u32,
    pub freeblks: u32,
    pub longest: u32,
    pub btreeblks: u32,
}

impl Agf {
    // The named bytes, and the checksum over the sector, and whether that stood there already; every other byte stays. 27 unless the
    // sector is one.
    pub fn encode(self, uuid: &[u8; 16], sector: &mut [u8]) -> Stamped
        ensures { Encoded (sector_number (length sector.old)) (agf_crc_at ∷ [])
            (agf_bytes self uuid.now sector.old) sector.old result.number result.right sector.new }
    {
        if !is_sector(sector.len()) {
            return Stamped {
                number: refusals::WRONG_LENGTH,
                right: false,
            };
        }
        let prefix: [u32; 16] = [
            AGF_MAGIC, // agf_magicnum
            crate::AG_VERSION, // agf_versionnum
            self.seqno, // agf_seqno
            self.length, // agf_length
            self.bno_root, // agf_bno_root
            self.cnt_root, // agf_cnt_root
            self.rmap_root, // agf_rmap_root
            self.bno_level, // agf_bno_level
            self.cnt_level, // agf_cnt_level
            self.rmap_level, // agf_rmap_level
            self.flfirst, // agf_flfirst
            self.fllast, // agf_fllast
            self.flcount, // agf_flcount
            self.freeblks, // agf_freeblks
            self.longest, // agf_longest
            self.btreeblks, // agf_btreeblks
        ];
        let back: [u32; 4] = [
            self.rmap_blocks, // agf_rmap_blocks
            self.refcount_blocks, // agf_refcount_blocks
            self.refcount_root, // agf_refcount_root
            self.refcount_level, // agf_refcount_level
        ];
        endian::put32_run(sector, 0, &prefix);
        endian::put_bytes(sector, UUID, uuid); // agf_uuid
        endian::put32_run(sector, RMAP_BLOCKS, &back);
        endian::put64(sector, LSN, 0); // agf_lsn
        crc::stamp(sector, CRC) // agf_crc
    }
}
