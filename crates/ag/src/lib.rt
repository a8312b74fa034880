// The headers of an allocation group, one sector each behind the superblock: free space, inodes, free list. The Rust's structs/ag.rs.
#![tactic(auto)]

pub mod agf; // `struct xfs_agf`
pub mod agfl; // `struct xfs_agfl`
pub mod agi; // `struct xfs_agi`

pub use agf::Agf;
pub use agfl::encode_agfl;
pub use agi::Agi;

// The version of AGF and AGI.
pub const AG_VERSION: u32 = 1;
