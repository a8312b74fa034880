// The record lists of the trees: a count (8), and the records, 16 bytes each, of which a free extent has the first 8.
use crate::cases::{byte, half};
use btree::{AllocRec, InobtRec, RmapRec};
use replay_frames::{behind, long, records, word};

// The bytes of a record.
pub(crate) const RECORD: usize = 16;

pub(crate) fn alloc_rec(p: &[u8]) -> AllocRec {
    AllocRec {
        start: word(p, 0),
        count: word(p, 4),
    }
}

fn inobt_rec(p: &[u8]) -> InobtRec {
    InobtRec {
        startino: word(p, 0),
        holemask: half(p, 4),
        count: byte(p, 6),
        freecount: byte(p, 7),
        free: long(p, 8),
    }
}

pub(crate) fn rmap_rec(p: &[u8]) -> RmapRec {
    RmapRec {
        start: word(p, 0),
        count: word(p, 4),
        owner: long(p, 8),
    }
}

pub(crate) fn alloc_recs(p: &[u8], out: &mut [u8]) -> u32 {
    let recs = records(behind(p, 8), RECORD, alloc_rec);
    btree_records::alloc_recs_64(recs, long(p, 0) as usize, out)
}

pub(crate) fn inobt_recs(p: &[u8], sparse: bool, out: &mut [u8]) -> u32 {
    let recs = records(behind(p, 8), RECORD, inobt_rec);
    btree_records::inobt_recs_64(recs, long(p, 0) as usize, sparse, out)
}

pub(crate) fn rmap_recs(p: &[u8], out: &mut [u8]) -> u32 {
    let recs = records(behind(p, 8), RECORD, rmap_rec);
    btree_records::rmap_recs_64(recs, long(p, 0) as usize, out)
}
