// Inodes on disk: an allocated one, a free one, and the data of an empty directory. The Rust's structs/inode.rs; crate inode_time has its
// times.
#![tactic(auto)]

pub mod dinode; // `struct xfs_dinode`
pub mod directory; // an empty directory within its inode

pub use dinode::{Dinode, encode_free};
pub use directory::{SfDir, empty_sf_dir};
