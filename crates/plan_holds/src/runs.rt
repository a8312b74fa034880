// The held runs, sorted by start, in an array of eight with a count.
ghost use Rattle.std.specs.Prelude.{◌≡◌, [], ◌≤◌, ◌<◌};
ghost use Rattle.seqs.specs.Lists.{fold};
ghost use Rattle.plan_holds.specs.Holding.{held_of, pack_held, starts_on, is_run, any_run, put_run, drop_run};
ghost use Rattle.plan_holds.specs.Adding.{added_if, added_side};

use crate::HeldList;
use btree::AllocRec;

// No run.
pub(crate) fn no_runs() -> HeldList
    ensures { result ≡ pack_held [] }
{
    let z = AllocRec { start: 0, count: 0 };
    let recs = [z; 8];
    HeldList { recs, len: 0 }
}

// One run put behind the last where the test holds; a full list stays as it is.
fn add_if(test: bool, l: HeldList, r: AllocRec) -> HeldList
    ensures { result ≡ added_if test l r }
{
    let mut out = l;
    if test && l.len < 8 {
        out.recs[l.len] = r;
        out.len += 1;
    }
    out
}

// The run starts on that side of block a: below it, or above it.
fn starts_on(low: bool, a: u64, r: AllocRec) -> bool
    ensures { result ≡ starts_on low a r }
{
    if low {
        (r.start as u64) < a
    } else {
        a < (r.start as u64)
    }
}

// The runs of `src` that start on one side of block a, put behind those of `l`.
fn add_side(l: HeldList, src: HeldList, low: bool, a: u64) -> HeldList
    requires { src.len ≤ 8 }
    ensures { result ≡ fold (added_side low a) l (held_of src) }
{
    src.recs[..src.len]
        .iter()
        .fold(l, |out, r| add_if(starts_on(low, a, *r), out, *r))
}

// The run put between those that start below it and those that start above.
pub(crate) fn put_run(h: HeldList, r: AllocRec) -> HeldList
    requires { h.len < 8 }
    ensures { result ≡ pack_held (put_run r (held_of h)) }
{
    let none = no_runs();
    let low = add_side(none, h, true, r.start as u64);
    let mid = add_if(true, low, r);
    add_side(mid, h, false, r.start as u64)
}

// The runs that don't start at block a.
pub(crate) fn drop_run(h: HeldList, a: u64) -> HeldList
    requires { h.len ≤ 8 }
    ensures { result ≡ pack_held (drop_run a (held_of h)) }
{
    let none = no_runs();
    let low = add_side(none, h, true, a);
    add_side(low, h, false, a)
}

// The record is the run of n blocks from a.
fn is_run(a: u64, n: u64, r: AllocRec) -> bool
    ensures { result ≡ is_run a n r }
{
    (r.start as u64) == a && (r.count as u64) == n
}

// One of the runs is that of n blocks from a.
pub(crate) fn is_held(h: HeldList, a: u64, n: u64) -> bool
    requires { h.len ≤ 8 }
    ensures { result ≡ any_run a n (held_of h) }
{
    h.recs[..h.len].iter().any(|r| is_run(a, n, *r))
}
