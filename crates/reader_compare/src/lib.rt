// A place of the disk: the bytes that an accepted run leaves there are made, and compared with those that stand there. Whoever calls from
// another crate hands in no bytes to compare with, so that 0 always means that a run leaves these.
#![tactic(auto)]

ghost use Rattle.std.specs.Prelude.{◌≡◌};
ghost use Rattle.refusals.specs.Table.{first};
ghost use Rattle.reader_exact.specs.Read.{place_tests};
ghost use Rattle.reader_compare.specs.Places.{compared_number};

mod bytes; // bytes.rt: whether two slices hold the same bytes
pub mod heads; // heads.rt: a head, made and compared
pub mod logs; // logs.rt: the log's first block, made and compared

use bytes::same_bytes;
use geometry::Geometry;
use geometry_answers::is_answer;
use group_bytes::head_length;
use plan_summary::plans_number;

// The number of a place: 31, 29 where it is past the last, 27 for another length, 30 unless it holds what is left there, or 0.
pub(crate) fn place_number(g: Geometry, past: bool, size: usize, left: &[u8], bytes: &[u8]) -> u32
    ensures { result ≡ first (place_tests g past size left.now bytes.now) 0 }
{
    if !is_answer(g) {
        return refusals::NO_ANSWER;
    }
    if past {
        return refusals::NO_PLACE;
    }
    if bytes.len() != size {
        return refusals::WRONG_LENGTH;
    }
    if plans_number(g) != 0 {
        return refusals::NOT_LEFT;
    }
    if same_bytes(bytes, left) {
        return 0;
    }
    refusals::NOT_LEFT
}

// The number of group agno's head, whose left bytes were made: 31, 29, 27, 30, or 0.
pub(crate) fn compare_head(g: Geometry, agno: u64, left: &[u8], head: &[u8]) -> u32
    ensures { result ≡ compared_number g agno left.now head.now }
{
    let f = g.features;
    let size = head_length(f, g.sectsize, g.blocksize);
    place_number(g, g.agcount <= agno, size, left, head)
}
