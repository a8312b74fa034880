// Lists of reverse mappings: made, made longer, tested.
ghost use Rattle.std.specs.Prelude.{◌≡◌, [], ◌≤◌};
ghost use Rattle.std.proofs.Math.Seq.{slice};
ghost use Rattle.seqs.specs.Lists.{pushed, appended};
ghost use Rattle.seqs.specs.Runs.{valid};
ghost use Rattle.plan_rmap.specs.Rmap.{of_rmap, to_rmap, rmap_of, pack_rmap, rmap_start, rmap_count};

use crate::RmapList;
use btree::RmapRec;

// No record.
pub fn empty() -> RmapList
    ensures { result ≡ pack_rmap [] }
{
    let z = RmapRec {
        start: 0,
        count: 0,
        owner: 0,
    };
    let recs = [z; 64];
    RmapList { recs, len: 0 }
}

// One record more; a full list stays as it is.
pub fn push(l: RmapList, r: RmapRec) -> RmapList
    ensures { result ≡ to_rmap (pushed (of_rmap l) r) }
{
    let mut out = l;
    if l.len < 64 {
        out.recs[l.len] = r;
        out.len += 1;
    }
    out
}

// The records of `src` from index `from` up to, not including, index `to`, put behind those of `l`.
pub(crate) fn append(l: RmapList, src: RmapList, from: usize, to: usize) -> RmapList
    requires { (from ≤ to) × (to ≤ 64) }
    ensures { result ≡ to_rmap (appended (of_rmap l) (slice from to src.recs)) }
{
    src.recs[from..to].iter().fold(l, |out, r| push(out, *r))
}

// Sorted by start, apart, no record empty, no end above 2^32 − 1.
pub(crate) fn is_valid(l: RmapList) -> bool
    requires { l.len ≤ 64 }
    ensures { result ≡ valid rmap_start rmap_count 0 (rmap_of l) }
{
    let mut lo: u64 = 0;
    for r in &l.recs[..l.len] {
        if !seqs::may_follow(lo, r.start, r.count) {
            return false;
        }
        lo = seqs::end_of(r.start, r.count);
    }
    true
}
