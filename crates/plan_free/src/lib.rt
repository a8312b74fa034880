// The free extents of an allocation group: a run taken out, and the extent that the free list is filled from. `take` and the pick of
// `plan_ag` in the Rust's format.rs.
#![tactic(auto)]

pub mod list; // list.rt: an array of 64 records with a count
pub mod picking; // picking.rt: the smallest record that holds what is wanted, else the largest
pub mod taking; // taking.rt: a run taken out of the record that holds it

use btree::AllocRec;
pub use list::{empty, push};
pub use picking::pick;
pub use taking::take;

// The first `len` of `recs` are the list.
#[derive(Clone, Copy, PartialEq, Eq)]
pub struct FreeList {
    pub recs: [AllocRec; 64],
    pub len: usize,
}

// `number` is 0, and `list` the records left; or the number of the refusal, and no record.
#[derive(Clone, Copy)]
pub struct Taken {
    pub number: u32,
    pub list: FreeList,
}

// A record, where there is one; `number` is 0, or 34 for a list of more than 64, and then there is none.
#[derive(Clone, Copy)]
pub struct Choice {
    pub number: u32,
    pub found: bool,
    pub rec: AllocRec,
}
