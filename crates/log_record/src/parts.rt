// The pieces of a log record: its length, its header, the unmount record and the stamps of the basic blocks behind it.
ghost use Rattle.std.specs.Prelude.{◌≡◌, ◌*◌, ◌-◌, ◌≤◌, length};
ghost use Rattle.endian.specs.Fields.{write_fields};
ghost use Rattle.log_record.specs.Record.{basic_blocks_of, header_fields, stamps, unmount_fields};

// A basic block, in bytes.
pub const BBSIZE: usize = 512;

// The size that the header names.
pub const BIG_RECORD_BSIZE: u64 = 32768;

pub const HEADER_MAGIC: u64 = 0xfeed_babe;

pub const FMT_LINUX_LE: u64 = 1;

pub const UNMOUNT_TYPE: u16 = 0x556e;

pub const UNMOUNT_TID: u64 = 0xb0c0_d0d0;

pub const CLIENT_LOG: u8 = 0xaa;

pub const UNMOUNT_TRANS: u8 = 0x20;

// Offsets in `struct xlog_rec_header`.
pub mod off {
    pub const MAGICNO: usize = 0;

    pub const CYCLE: usize = 4;

    pub const VERSION: usize = 8;

    pub const LEN: usize = 12;

    pub const LSN: usize = 16;

    pub const TAIL_LSN: usize = 24;

    pub const CRC: usize = 32;

    pub const PREV_BLOCK: usize = 36;

    pub const NUM_LOGOPS: usize = 40;

    pub const CYCLE_DATA: usize = 44;

    pub const FMT: usize = 300;

    pub const FS_UUID: usize = 304;

    pub const SIZE: usize = 320;
}

// The basic blocks of a record.
pub(crate) fn record_blocks(sunit: u32) -> usize
    ensures { result ≡ basic_blocks_of sunit }
{
    u64::from(sunit).div_ceil(512).max(2) as usize
}

// The header, as `struct xlog_rec_header` has it.
pub(crate) fn header(rec: &mut [u8], uuid: &[u8; 16], sunit: u32, lsn: u64, tail_lsn: u64)
    requires { 512 ≤ length rec.old }
    ensures { rec.new ≡ write_fields (header_fields uuid.now sunit lsn tail_lsn) rec.old }
{
    let len = u64::from(sunit).max(1024) - 512;
    let at: [usize; 24] = [
        off::MAGICNO,
        4,
        off::CYCLE,
        4,
        off::VERSION,
        4,
        off::LEN,
        4,
        off::LSN,
        8,
        off::TAIL_LSN,
        8,
        off::CRC,
        4,
        off::PREV_BLOCK,
        4,
        off::NUM_LOGOPS,
        4,
        off::CYCLE_DATA,
        4,
        off::FMT,
        4,
        off::SIZE,
        4,
    ];
    let v: [u64; 12] = [
        HEADER_MAGIC, // h_magicno
        lsn / 0x1_0000_0000, // h_cycle
        2, // h_version
        len, // h_len
        lsn, // h_lsn
        tail_lsn, // h_tail_lsn
        0, // h_crc
        0xffff_ffff, // h_prev_block
        1, // h_num_logops
        UNMOUNT_TID, // h_cycle_data, the first of 64
        FMT_LINUX_LE, // h_fmt
        BIG_RECORD_BSIZE, // h_size
    ];
    endian::put_all(rec, &at, &v);
    endian::put_bytes(rec, off::FS_UUID, uuid);
}

// The unmount record behind the header: `struct xlog_op_header`, whose first word has given way to the cycle, and
// `struct xfs_unmount_log_format`.
pub(crate) fn unmount(rec: &mut [u8], cycle: u32)
    requires { 1024 ≤ length rec.old }
    ensures { rec.new ≡ write_fields (unmount_fields 512 cycle) rec.old }
{
    endian::put32(rec, 512, cycle); // in the place of oh_tid
    endian::put32(rec, 516, 8); // oh_len
    endian::put8(rec, 520, CLIENT_LOG); // oh_clientid
    endian::put8(rec, 521, UNMOUNT_TRANS); // oh_flags
    endian_little::put_le16(rec, 524, UNMOUNT_TYPE); // magic
}

// The cycle goes into the first word of each basic block behind the unmount record.
pub(crate) fn stamp_blocks(rec: &mut [u8], blocks: usize, cycle: u32)
    requires { 512 * blocks ≤ length rec.old }
    ensures { rec.new ≡ write_fields (stamps cycle 2 (blocks - 2)) rec.old }
{
    for i in 2..blocks {
        endian::put32(rec, BBSIZE * i, cycle);
    }
}
