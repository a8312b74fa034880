// What the structures on disk share: the null numbers, and which lengths a sector, a block and an inode may have. The Rust's
// structs/mod.rs.
#![tactic(auto)]

pub mod sizes; // the lengths of a sector, a block and an inode

pub use sizes::{is_block, is_inode, is_sector};

// No block of a group, no inode of a group: NULLAGBLOCK, NULLAGINO.
pub const NULL32: u32 = 0xffff_ffff;

// No inode: NULLFSINO.
pub const NULL64: u64 = 0xffff_ffff_ffff_ffff;
