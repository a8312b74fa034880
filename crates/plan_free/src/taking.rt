// A run of blocks taken out of the free extents.
ghost use Rattle.std.specs.Prelude.{◌≡◌, ◌+◌, ◌-◌, ◌≤◌, ◌<◌, ◌^◌, length, get_or};
ghost use Rattle.seqs.specs.Lists.{first_index, appended};
ghost use Rattle.plan_free.specs.Free.{zero_free_rec, of_free, to_free, free_of, alloc_end, holds_run, rest_before, rest_after, without_run, take_refused, taken_at, taken};

use crate::list::{append, empty, is_valid, push};
use crate::{FreeList, Taken};
use btree::AllocRec;

// The answer of a refusal.
fn refused(number: u32) -> Taken
    ensures { result ≡ take_refused number }
{
    let list = empty();
    Taken { number, list }
}

// The run from s up to, not including, e lies within the record.
fn holds(r: AllocRec, s: u64, e: u64) -> bool
    ensures { result ≡ holds_run s e r }
{
    (r.start as u64) <= s && e <= seqs::end_of(r.start, r.count)
}

// The index of the first record that holds the run, or the count where none does.
fn find(l: FreeList, s: u64, e: u64) -> usize
    requires { l.len ≤ 64 }
    ensures { result ≡ first_index (holds_run s e) (free_of l) }
{
    let n = l.len;
    let mut i: usize = 0;
    loop {
        if i >= n {
            break n;
        }
        let r = l.recs[i];
        if holds(r, s, e) {
            break i;
        }
        i += 1;
    }
}

// How many records the run leaves of a record that holds it.
fn pieces(r: AllocRec, s: u64, e: u64) -> usize
    ensures { result ≡ length (without_run s e r) }
{
    let re = seqs::end_of(r.start, r.count);
    if (r.start as u64) < s {
        if e < re { 2 } else { 1 }
    } else {
        if e < re { 1 } else { 0 }
    }
}

// What a run from s leaves before it, put behind the records of `l`.
fn put_before(l: FreeList, r: AllocRec, s: u64) -> FreeList
    requires { s ≤ alloc_end r }
    ensures { result ≡ to_free (appended (of_free l) (rest_before s r)) }
{
    let rs = r.start as u64;
    if rs < s {
        let p = AllocRec {
            start: r.start,
            count: (s - rs) as u32,
        };
        return push(l, p);
    }
    l
}

// What a run up to e leaves after it.
fn put_after(l: FreeList, r: AllocRec, e: u64) -> FreeList
    requires { alloc_end r < 2 ^ 32 }
    ensures { result ≡ to_free (appended (of_free l) (rest_after e r)) }
{
    let re = seqs::end_of(r.start, r.count);
    if e < re {
        let p = AllocRec {
            start: e as u32,
            count: (re - e) as u32,
        };
        return push(l, p);
    }
    l
}

// The run taken out of the record at index i, which holds it.
fn take_at(l: FreeList, i: usize, s: u64, e: u64) -> Taken
    requires { (l.len ≤ 64) × (i < l.len) × (s ≤ alloc_end (get_or l.recs i zero_free_rec))
        × (alloc_end (get_or l.recs i zero_free_rec) < 2 ^ 32) }
    ensures { result ≡ taken_at (free_of l) i s e }
{
    let n = l.len;
    let r = l.recs[i];
    let k = pieces(r, s, e);
    if k > 65 - n {
        return refused(refusals::TOO_MANY_RECORDS);
    }
    let none = empty();
    let head = append(none, l, 0, i);
    let left = put_before(head, r, s);
    let right = put_after(left, r, e);
    let list = append(right, l, i + 1, n);
    Taken { number: 0, list }
}

// The run of `len` blocks from `start` taken out of the first record that holds it. 34 above 64 records, 32 unless the list is valid,
// 33 where no record holds the run, 34 where more than 64 are left.
pub fn take(free: FreeList, start: u64, len: u64) -> Taken
    ensures { result ≡ taken free start len }
{
    if free.len > 64 {
        return refused(refusals::TOO_MANY_RECORDS);
    }
    if !is_valid(free) {
        return refused(refusals::NOT_VALID);
    }
    let Some(end) = start.checked_add(len) else {
        return refused(refusals::NOT_FREE);
    };
    let i = find(free, start, end);
    if i >= free.len {
        return refused(refusals::NOT_FREE);
    }
    take_at(free, i, start, end)
}
