// The register of CRC32C over bytes, by tables. The tables are made once a call and lent to the loops, since a constant array that is
// indexed is stored anew at each use; zeros at the end are not read but jumped.
#![tactic(auto)]

pub mod bytewise; // a byte at a time
pub mod eightfold; // eight bytes at a time
pub mod zeros; // zeros at the end
pub mod register; // the public functions

pub use register::{update, update_zeroed};
