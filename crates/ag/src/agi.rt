// The inode header of a group.
ghost use Rattle.std.specs.Prelude.{◌≡◌, [], ◌∷◌, ◌≤◌, length};
ghost use Rattle.endian.specs.Fields.{write_fields};
ghost use Rattle.structs.specs.Encoded.{Encoded};
ghost use Rattle.ag.specs.Sector.{sector_number};
ghost use Rattle.ag.specs.Agi.{agi_crc_at, agi_prefix, agi_bytes};

use crc::Stamped;
use structs::is_sector;

// "XAGI"
pub const AGI_MAGIC: u32 = 0x5841_4749;

// The lists of unlinked inodes that are still open.
pub const UNLINKED_BUCKETS: usize = 64;

// The offsets of these lists, of the UUID, of the checksum, of the log sequence number and of the numbers behind it.
pub const UNLINKED: usize = 40;

pub const UUID: usize = 296;

pub const CRC: usize = 312;

pub const LSN: usize = 320;

pub const FREE_ROOT: usize = 328;

// Everything in an AGI: the group's number and length, inodes, the roots, levels and blocks of its trees, and the newest chunk.
#[derive(Clone, Copy)]
pub struct Agi {
    pub seqno: u32,
    pub length: u32,
    pub count: u32,
    pub root: u32,
    pub level: u32,
    pub freecount: u32,
    pub newino: u32,
    pub free_root: u32,
    pub free_level: u32,
    pub iblocks: u32,
    pub fblocks: u32,
}

// What stands before the checksum: numbers, lists of unlinked inodes, all empty, and UUID.
fn put_prefix(sector: &mut [u8], prefix: [u32; 10], uuid: &[u8; 16])
    requires { 512 ≤ length sector.old }
    ensures { (sector.new ≡ write_fields (agi_prefix prefix uuid.now) sector.old)
        × (length uuid.now ≡ 16) }
{
    endian::put32_run(sector, 0, &prefix);
    endian::put_same(sector, UNLINKED, 4 * UNLINKED_BUCKETS, 255); // agi_unlinked
    endian::put_bytes(sector, UUID, uuid); // agi_uuid
}

impl Agi {
    // The named bytes, and the checksum over the sector, and whether that stood there already; every other byte stays. 27 unless the
    // sector is one.
    pub fn encode(self, uuid: &[u8; 16], sector: &mut [u8]) -> Stamped
        ensures { Encoded (sector_number (length sector.old)) (agi_crc_at ∷ [])
            (agi_bytes self uuid.now sector.old) sector.old result.number result.right sector.new }
    {
        if !is_sector(sector.len()) {
            return Stamped {
                number: refusals::WRONG_LENGTH,
                right: false,
            };
        }
        let prefix: [u32; 10] = [
            AGI_MAGIC, // agi_magicnum
            crate::AG_VERSION, // agi_versionnum
            self.seqno, // agi_seqno
            self.length, // agi_length
            self.count, // agi_count
            self.root, // agi_root
            self.level, // agi_level
            self.freecount, // agi_freecount
            self.newino, // agi_newino
            structs::NULL32, // agi_dirino
        ];
        // agi_free_root, agi_free_level, agi_iblocks, agi_fblocks
        let back: [u32; 4] = [self.free_root, self.free_level, self.iblocks, self.fblocks];
        put_prefix(sector, prefix, uuid);
        endian::put64(sector, LSN, 0); // agi_lsn
        endian::put32_run(sector, FREE_ROOT, &back);
        crc::stamp(sector, CRC) // agi_crc
    }
}
