// The written records as data: zeros, one block's bytes, a flush. Here are the marks and sizes that other crates write and read by; what a
// list is, and what it leaves on a device, stands in specs/ and proofs/.
#![tactic(auto)]

// The marks: "WZ" for zeros, "WB" for a block, "FL" for a flush.
pub const ZEROS_MARK: u16 = 0x575a;

pub const BLOCK_MARK: u16 = 0x5742;

pub const FLUSH_MARK: u16 = 0x464c;

// Bytes of a mark, which is all of a flush; and of a write before its bytes: mark, offset, length.
pub const MARK_SIZE: usize = 2;

pub const HEAD_SIZE: usize = 18;
