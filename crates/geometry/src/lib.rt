// The geometry step: what mkfs.xfs would choose for the options and the device, or the number of the refusal.
// The types stand here.
#![tactic(auto)]

pub mod sizes; // sizes.rt: block, sector and inode size, 2 to 8
pub mod groups; // groups.rt: block count and groups, 9 to 18
pub mod log_size; // log_size.rt: head blocks, log and imaxpct, 19 to 24
pub mod step; // step.rt: Geometry::compute

use crate::groups::Groups;
use crate::sizes::Sizes;
use params::Features;

// All that the options and the device decide; the groups as asked for and without a short last one.
#[derive(Clone, Copy)]
pub struct Chosen {
    pub sizes: Sizes,
    pub asked: Groups,
    pub groups: Groups,
    pub imaxpct: u8,
    pub prealloc: u64,
    pub log: u64,
}

// Every number that the formatter needs, fixed before a byte is written.
#[derive(Clone, Copy, PartialEq, Eq)]
pub struct Geometry {
    pub blocksize: u32, // bytes
    pub blocklog: u8,
    pub sectsize: u32, // bytes
    pub sectlog: u8,
    pub lsectsize: u32, // bytes: the log's sector
    pub lsectlog: u8,
    pub inodesize: u32, // bytes
    pub inodelog: u8,
    pub inopblock: u32, // inodes per block
    pub inopblog: u8,
    pub dirblocklog: u8,
    pub dblocks: u64, // blocks of the file system
    pub agsize: u64, // blocks of a group; the last may be short
    pub agcount: u64,
    pub agblklog: u8, // the logarithm of agsize, rounded up
    pub imaxpct: u8,
    pub logblocks: u64,
    pub logagno: u64, // the group of the log
    pub log_agbno: u64, // the log's first block within its group
    pub features: Features,
    pub label: [u8; 12], // filled up with zeros
    pub roomy: bool, // roomy log sizing, else plain
}

// The number is 0 for an accepted geometry; a refusal has the geometry of zeros.
#[derive(Clone, Copy)]
pub struct Computed {
    pub number: u32,
    pub geometry: Geometry,
}

// The limits of groups, log and what they hold, under the Rust's names where it has them.
impl Geometry {
    pub const DINODE_MIN_SIZE: u32 = 256; // bytes

    pub const INODE_BIG_CLUSTER_SIZE: u64 = 8192; // bytes, for inodes of DINODE_MIN_SIZE

    pub const INODES_PER_CHUNK: u64 = 64;

    pub const MIN_DIR_BLOCK: u32 = 4096; // bytes

    pub const MIN_DIR_LOG: u8 = 12; // its logarithm

    pub const MIN_RTEXTSIZE: u32 = 4096; // bytes

    pub const LOG_HEADER_SIZE: u32 = 512; // bytes of a log record header

    pub const BBSIZE: u64 = 512; // bytes of an address unit

    pub const AGFL_HEADER: u32 = 36; // bytes

    pub const TIB: u64 = 1 << 40; // bytes

    pub const AG_MIN_BYTES: u64 = 1 << 24;

    pub const AG_MAX_BYTES: u64 = 1 << 40; // a group is smaller

    pub const MAX_AGNUMBER: u64 = 0xffff_fffe; // the largest number of groups

    pub const LARGE_BYTES: u64 = 4 << 40; // from here on groups have the largest size

    pub const FOUR_GROUP_BYTES: u64 = 64 << 20; // from here on there are four groups

    pub const TWO_GROUP_BYTES: u64 = 32 << 20; // from here on there are two

    pub const MIN_SUPPORTED_BYTES: u64 = 300 << 20; // the least file system

    pub const MIN_AGCOUNT: u64 = 2;

    pub const REALISTIC_LOG_BYTES: u64 = 64 << 20; // the least log

    pub const MAX_LOG_BLOCKS: u64 = 1 << 20; // blocks

    pub const MAX_LOG_BYTES: u64 = (2 << 30) - (10 << 20);

    pub const LOG_RATIO: u64 = 2048; // blocks of the file system for one of the log

    pub const ALLOCBT_AGFL_RESERVE: u64 = 4; // blocks

    pub const RMAP_FREELIST: u64 = 6; // blocks of a free list with rmapbt

    pub const PLAIN_FREELIST: u64 = 4; // and without

    pub const MAX_IMAXPCT: u8 = 100; // percent

    pub const MAX_LABEL: usize = 12; // bytes
}
