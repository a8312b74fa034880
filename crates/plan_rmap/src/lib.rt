// The reverse mappings of an allocation group: a record put in, joined with its neighbours of the same owner. `rmap_insert` in the
// Rust's format.rs.
#![tactic(auto)]

pub mod inserting; // inserting.rt: where a record goes, what it joins
pub mod list; // list.rt: an array of 64 records with a count

use btree::RmapRec;
pub use inserting::rmap_insert;
pub use list::{empty, push};

// The first `len` of `recs` are the list.
#[derive(Clone, Copy, PartialEq, Eq)]
pub struct RmapList {
    pub recs: [RmapRec; 64],
    pub len: usize,
}

// `number` is 0, and `list` the records with the new one; or the number of the refusal, and no record.
#[derive(Clone, Copy)]
pub struct Inserted {
    pub number: u32,
    pub list: RmapList,
}
