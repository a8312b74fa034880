// Numbers and bytes in a lent buffer. Each function answers every offset and buffer: 0, or 27 where the bytes don't lie inside, and
// then nothing has changed. The Rust's bytes.rs.
#![tactic(auto)]

pub mod numbers; // one number, big-endian, into a buffer and out of it (crate endian_little has the other order)
pub mod runs; // bytes, copies of a byte, the fields of a structure, consecutive numbers

pub use numbers::{Read16, Read32, Read64, be16, be32, be64, inside, put8, put16, put32, put64};
pub use runs::{put_all, put_bytes, put_same, put32_run};
