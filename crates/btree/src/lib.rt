// The trees of an allocation group: their records, and a leaf block that is the root. The Rust's structs/btree.rs.
#![tactic(auto)]

pub mod leaf; // a leaf block that is the root
pub mod owner; // who owns a reverse mapping
pub mod records; // free space, inode and reverse mapping records

pub use leaf::leaf_block;
pub use records::{AllocRec, InobtRec, RmapRec};

// Magic numbers of the trees.
pub mod magic {
    // Free space by block, "AB3B".
    pub const BNO: u32 = 0x4142_3342;

    // Free space by size, "AB3C".
    pub const CNT: u32 = 0x4142_3343;

    // Inodes, "IAB3".
    pub const INO: u32 = 0x4941_4233;

    // Free inodes, "FIB3".
    pub const FINO: u32 = 0x4649_4233;

    // Reverse mappings, "RMB3".
    pub const RMAP: u32 = 0x524d_4233;

    // Reference counts, "R3FC".
    pub const REFC: u32 = 0x5233_4643;
}
