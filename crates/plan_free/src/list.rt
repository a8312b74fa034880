// Lists of free extents: made, made longer, tested.
ghost use Rattle.std.specs.Prelude.{◌≡◌, [], ◌≤◌};
ghost use Rattle.std.proofs.Math.Seq.{slice};
ghost use Rattle.seqs.specs.Lists.{pushed, appended};
ghost use Rattle.seqs.specs.Runs.{valid};
ghost use Rattle.plan_free.specs.Free.{of_free, to_free, free_of, pack_free, alloc_start, alloc_count};

use crate::FreeList;
use btree::AllocRec;

// No record.
pub fn empty() -> FreeList
    ensures { result ≡ pack_free [] }
{
    let z = AllocRec { start: 0, count: 0 };
    let recs = [z; 64];
    FreeList { recs, len: 0 }
}

// One record more; a full list stays as it is.
pub fn push(l: FreeList, r: AllocRec) -> FreeList
    ensures { result ≡ to_free (pushed (of_free l) r) }
{
    let mut out = l;
    if l.len < 64 {
        out.recs[l.len] = r;
        out.len += 1;
    }
    out
}

// The records of `src` from index `from` up to, not including, index `to`, put behind those of `l`.
pub(crate) fn append(l: FreeList, src: FreeList, from: usize, to: usize) -> FreeList
    requires { (from ≤ to) × (to ≤ 64) }
    ensures { result ≡ to_free (appended (of_free l) (slice from to src.recs)) }
{
    src.recs[from..to].iter().fold(l, |out, r| push(out, *r))
}

// Sorted by start, apart, no record empty, no end above 2^32 − 1.
pub(crate) fn is_valid(l: FreeList) -> bool
    requires { l.len ≤ 64 }
    ensures { result ≡ valid alloc_start alloc_count 0 (free_of l) }
{
    let mut lo: u64 = 0;
    for r in &l.recs[..l.len] {
        if !seqs::may_follow(lo, r.start, r.count) {
            return false;
        }
        lo = seqs::end_of(r.start, r.count);
    }
    true
}
