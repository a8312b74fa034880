// What formatter and reader share: each group's head and the log's first block, made in lent memory.
#![tactic(auto)]

ghost use Rattle.std.specs.Prelude.{◌≡◌, ◌*◌, length};
ghost use Rattle.structs.specs.Written.{Written};
ghost use Rattle.structs.specs.Encoded.{Encoded};
ghost use Rattle.geometry.specs.Log.{prealloc_of};
ghost use Rattle.head_bytes.specs.Places.{head_places};
ghost use Rattle.list_spec.specs.Listing.{head_written, head_left, log_block};
ghost use Rattle.group_bytes.specs.Answers.{head_refusal, log_refusal};

pub mod heads; // heads.rt: a head with a state of its superblock
pub mod logs; // logs.rt: the log's record, and zeros

use crate::heads::{fill_head, head_number, left_state};
use crate::logs::{fill_log, log_number};
use crc::Stamped;
use geometry::Geometry;
use geometry::log_size::prealloc_of;
use params::Features;
use sb_states::state_of;

// The largest head: 10 blocks of 16,384 bytes.
pub const LARGEST_HEAD: usize = 163840;

// Bytes of a head with these features and sizes.
pub fn head_length(f: Features, sector: u32, bs: u32) -> usize
    ensures { result ≡ prealloc_of f sector bs * bs }
{
    let blocks = prealloc_of(f, sector, bs as u64) as usize;
    blocks * (bs as usize)
}

// The head of group k as it is written first: group 0's superblock is unfinished; and whether its checksums stood there already. 31, 25
// where a plan is refused, 27 for another length than the head's, 29.
pub fn head_written(g: Geometry, uuid: [u8; 16], k: u64, head: &mut [u8]) -> Stamped
    ensures { Encoded (head_refusal g k (length head.old)) (head_places g) (head_written g uuid k) head.old
        result.number result.right head.new }
{
    let stated = state_of(g, uuid, k);
    let n = head_number(g, k, stated.number, head.len());
    if n != 0 {
        return Stamped {
            number: n,
            right: false,
        };
    }
    let state = stated.state;
    let right = fill_head(g, uuid, k, state, head);
    Stamped { number: 0, right }
}

// The head of group k as a run leaves it: group 0's has the finished superblock; and whether its checksums stood there already. 31, 25,
// 27, 29.
pub fn head_left(g: Geometry, uuid: [u8; 16], k: u64, head: &mut [u8]) -> Stamped
    ensures { Encoded (head_refusal g k (length head.old)) (head_places g) (head_left g uuid k) head.old
        result.number result.right head.new }
{
    let stated = left_state(g, uuid, k);
    let n = head_number(g, k, stated.number, head.len());
    if n != 0 {
        return Stamped {
            number: n,
            right: false,
        };
    }
    let state = stated.state;
    let right = fill_head(g, uuid, k, state, head);
    Stamped { number: 0, right }
}

// The log's first block: 31, 25 where a plan is refused, 27 for another length than a block's.
pub fn log_block(g: Geometry, uuid: [u8; 16], block: &mut [u8]) -> u32
    ensures { Written (log_refusal g (length block.old)) (log_block g uuid) block.old result block.new }
{
    let n = log_number(g, block.len());
    if n != 0 {
        return n;
    }
    fill_log(g, uuid, block);
    0
}
