// The record lists of lent slices: at most 65 records, 16 bytes each, of which a free extent has the first 8. Two functions lend the first
// records of an array to the encoders.
ghost use Rattle.std.specs.Prelude.{◌≤◌, length, take};
ghost use Rattle.structs.specs.Written.{Written};
ghost use Rattle.btree.specs.Records.{records_bytes, recs_number, alloc_bytes, rmap_bytes};

use crate::lists::{RECORD, alloc_rec, rmap_rec};
use btree::{AllocRec, RmapRec};
use replay_frames::records;

// The most records of a case.
const MOST: usize = 65;

// `btree_slices::alloc_recs` of the first `count` records.
fn alloc_first(recs: [AllocRec; 65], count: usize, out: &mut [u8]) -> u32
    requires { count ≤ 65 }
    ensures { Written (recs_number 8 count (length out.old)) (records_bytes alloc_bytes (take count recs)) out.old
        result out.new }
{
    btree_slices::alloc_recs(&recs[..count], out)
}

pub(crate) fn alloc_slice(p: &[u8], out: &mut [u8]) -> u32 {
    let count = p.len() / RECORD;
    if MOST < count {
        return refusals::MALFORMED;
    }
    alloc_first(records(p, RECORD, alloc_rec), count, out)
}

// `btree_slices::rmap_recs` of the first `count` records.
fn rmap_first(recs: [RmapRec; 65], count: usize, out: &mut [u8]) -> u32
    requires { count ≤ 65 }
    ensures { Written (recs_number 24 count (length out.old)) (records_bytes rmap_bytes (take count recs)) out.old
        result out.new }
{
    btree_slices::rmap_recs(&recs[..count], out)
}

pub(crate) fn rmap_slice(p: &[u8], out: &mut [u8]) -> u32 {
    let count = p.len() / RECORD;
    if MOST < count {
        return refusals::MALFORMED;
    }
    rmap_first(records(p, RECORD, rmap_rec), count, out)
}
