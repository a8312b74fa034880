// Refusals: the number of each (what it says: crate refusal_sentences), and a table of them, run from its last test to its first, so that
// the smallest number that applies is left.
#![tactic(auto)]

ghost use Rattle.std.specs.Prelude.{◌≡◌};
ghost use Rattle.arith.specs.Choice.{when};

// Features and sizes.
pub const INOBTCOUNT_ALONE: u32 = 1;

pub const BLOCK_NO_POWER: u32 = 2;

pub const BLOCK_OF_512: u32 = 3;

pub const BLOCK_TOO_LARGE: u32 = 4;

pub const BAD_SECTOR: u32 = 5;

pub const BLOCK_BELOW_SECTOR: u32 = 6;

pub const SECTOR_BELOW_LOGICAL: u32 = 7;

pub const BAD_INODE: u32 = 8;

// Block count and groups.
pub const SIZE_ABOVE_DEVICE: u32 = 9;

pub const TOO_FEW_BLOCKS: u32 = 10;

pub const AGSIZE_NO_MULTIPLE: u32 = 11;

pub const AGSIZE_ZERO: u32 = 12;

pub const AGCOUNT_ZERO: u32 = 13;

pub const LAST_GROUP_SHORT: u32 = 14;

pub const GROUP_TOO_SMALL: u32 = 15;

pub const GROUP_TOO_LARGE: u32 = 16;

pub const GROUP_ABOVE_DISK: u32 = 17;

pub const TOO_MANY_GROUPS: u32 = 18;

// Imaxpct, label, disk and log.
pub const IMAXPCT_ABOVE_100: u32 = 19;

pub const LABEL_TOO_LONG: u32 = 20;

pub const DISK_TOO_SMALL: u32 = 21;

pub const LOG_TOO_SMALL: u32 = 22;

pub const TOO_FEW_GROUPS: u32 = 23;

pub const AGCOUNT_UNLIKE: u32 = 24;

// Planning, and the time of a run.
pub const FREE_LIST_SHORT: u32 = 25;

pub const TIME_OUT_OF_RANGE: u32 = 26;

// Bytes, records and places.
pub const WRONG_LENGTH: u32 = 27;

pub const MALFORMED: u32 = 28;

pub const NO_PLACE: u32 = 29;

pub const NOT_LEFT: u32 = 30;

// Geometries, plans and lists that are handed in.
pub const NO_ANSWER: u32 = 31;

pub const NOT_VALID: u32 = 32;

pub const NOT_FREE: u32 = 33;

pub const TOO_MANY_RECORDS: u32 = 34;

pub const SUNIT_TOO_LARGE: u32 = 35;

// Questions about many disks.
pub const BAD_RANGE: u32 = 36;

pub const NOT_IN_PROFILE: u32 = 37;

pub const NONE_REACHES: u32 = 38;

pub const BAD_SIZES: u32 = 39;

pub const AREA_TOO_SMALL: u32 = 40;

pub const TOO_MANY_DISKS: u32 = 41;

// Held runs.
pub const NOT_HOLDABLE: u32 = 42;

pub const NOT_HELD: u32 = 43;

// n where the test holds, else what the later tests give.
pub fn first(test: bool, n: u32, rest: u32) -> u32
    ensures { result ≡ when test n rest }
{
    arith::choice::pick(test, n, rest)
}
