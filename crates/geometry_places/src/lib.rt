// The four units of a block's place and the conversions between them, as the methods of the Rust's Geometry give them.
// A geometry that is no answer of the geometry step gets 31; a group, block or slot that is not there gets 29.
#![tactic(auto)]

pub mod refusal; // refusal.rt: is the group, the block, the slot there?
pub mod units; // units.rt: the conversions and the inode number
pub mod fixed; // fixed.rt: the log's start, the root directory's inode, the first free count

// A block by its group and its number within the group.
#[derive(Clone, Copy)]
pub struct GroupBlock(pub u64, pub u64);

// A block by its number in the file system: the group above agblklog bits.
#[derive(Clone, Copy)]
pub struct FsBlock(pub u64);

// A place on the device in units of 512 bytes.
#[derive(Clone, Copy)]
pub struct DiskAddress(pub u64);

// A place on the device in bytes.
#[derive(Clone, Copy)]
pub struct ByteOffset(pub u64);
