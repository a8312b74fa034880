// The records of the trees. Crate btree_records has their bytes one after the other.

// The sizes of the records, in bytes.
pub const ALLOC_REC: usize = 8;

pub const INOBT_REC: usize = 16;

pub const RMAP_REC: usize = 24;

// A free extent: first block, length in blocks.
#[derive(Clone, Copy, PartialEq, Eq)]
pub struct AllocRec {
    pub start: u32,
    pub count: u32,
}

// A chunk of inodes: its first inode within the group, which groups of four inodes are holes, how many inodes there are and how many
// of them are free, and which, a bit for each.
#[derive(Clone, Copy)]
pub struct InobtRec {
    pub startino: u32,
    pub holemask: u16,
    pub count: u8,
    pub freecount: u8,
    pub free: u64,
}

// A reverse mapping of a special owner: first block, length in blocks, owner.
#[derive(Clone, Copy, PartialEq, Eq)]
pub struct RmapRec {
    pub start: u32,
    pub count: u32,
    pub owner: u64,
}
