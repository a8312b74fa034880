// A record put into the reverse mappings.
ghost use Rattle.std.specs.Prelude.{◌≡◌, true, [], ◌∷◌, ◌+◌, ◌-◌, ◌≤◌, ◌<◌, ◌^◌, drop};
ghost use Rattle.seqs.specs.Lists.{spliced};
ghost use Rattle.seqs.specs.Runs.{valid, end_at, next_ok};
ghost use Rattle.plan_rmap.specs.Rmap.{zero_rmap_rec, rmap_of, rmap_start, rmap_count, rmap_end, insert_place, joins, glued, joins_left, joins_right, insert_refused, inserted_list, inserted_at, takes, inserted};

use crate::list::{append, empty, is_valid, push};
use crate::{Inserted, RmapList};
use btree::RmapRec;

// The answer of a refusal.
fn refused(number: u32) -> Inserted
    ensures { result ≡ insert_refused number }
{
    let list = empty();
    Inserted { number, list }
}

// The index of the first record that starts at `s` or later, or the count.
fn place(l: RmapList, s: u32) -> usize
    requires { l.len ≤ 64 }
    ensures { result ≡ insert_place s (rmap_of l) }
{
    l.recs[..l.len]
        .iter()
        .position(|r| s <= r.start)
        .unwrap_or(l.len)
}

// b starts where a ends, and has the same owner.
fn joined(a: RmapRec, b: RmapRec) -> bool
    ensures { result ≡ joins a b }
{
    a.owner == b.owner && seqs::end_of(a.start, a.count) == (b.start as u64)
}

// The record joins the one before index p.
fn joined_left(l: RmapList, p: usize, r: RmapRec) -> bool
    requires { (p ≤ l.len) × (l.len ≤ 64) }
    ensures { result ≡ joins_left (rmap_of l) p r }
{
    0 < p && joined(l.recs[p - 1], r)
}

// The record joins the one at index p.
fn joined_right(l: RmapList, p: usize, r: RmapRec) -> bool
    requires { (p ≤ l.len) × (l.len ≤ 64) }
    ensures { result ≡ joins_right (rmap_of l) p r }
{
    p < l.len && joined(r, l.recs[p])
}

// Two records that join as one.
fn glue(a: RmapRec, b: RmapRec) -> RmapRec
    requires { a.count + b.count < 2 ^ 32 }
    ensures { result ≡ glued a b }
{
    RmapRec {
        start: a.start,
        count: a.count + b.count,
        owner: a.owner,
    }
}

// Where the record before index p ends, or 0.
fn end_before(l: RmapList, p: usize) -> u64
    requires { (p ≤ l.len) × (l.len ≤ 64) }
    ensures { result ≡ end_at rmap_start rmap_count zero_rmap_rec 0 (rmap_of l) p }
{
    if p == 0 {
        return 0;
    }
    let a = l.recs[p - 1];
    seqs::end_of(a.start, a.count)
}

// The record at index p, if there is one, starts at e or later.
fn next_ok(l: RmapList, p: usize, e: u64) -> bool
    requires { (p ≤ l.len) × (l.len ≤ 64) }
    ensures { result ≡ next_ok rmap_start rmap_count e (drop p (rmap_of l)) }
{
    p >= l.len || e <= (l.recs[p].start as u64)
}

// The list is valid, and stays so with the record at index p.
fn can_take(l: RmapList, p: usize, r: RmapRec) -> bool
    requires { (p ≤ l.len) × (l.len ≤ 64) }
    ensures { result ≡ takes (rmap_of l) p r }
{
    if !is_valid(l) {
        return false;
    }
    let lo = end_before(l, p);
    if !seqs::may_follow(lo, r.start, r.count) {
        return false;
    }
    next_ok(l, p, seqs::end_of(r.start, r.count))
}

// The records from index i up to, not including, index j replaced by `x`.
fn splice(l: RmapList, i: usize, j: usize, x: RmapRec) -> Inserted
    requires { (i ≤ j) × (j ≤ l.len) × (l.len ≤ 64) }
    ensures { result ≡ inserted_list (spliced (rmap_of l) i j (x ∷ [])) }
{
    let n = l.len;
    if i + 1 + (n - j) > 64 {
        return refused(refusals::TOO_MANY_RECORDS);
    }
    let none = empty();
    let head = append(none, l, 0, i);
    let mid = push(head, x);
    let list = append(mid, l, j, n);
    Inserted { number: 0, list }
}

// The record put at index p, joined with the neighbours that it joins.
fn insert_at(l: RmapList, p: usize, r: RmapRec) -> Inserted
    requires { (p ≤ l.len) × (l.len ≤ 64) × (valid rmap_start rmap_count 0 (rmap_of l) ≡ true) × (rmap_end r < 2 ^ 32) }
    ensures { result ≡ inserted_at (rmap_of l) p r }
{
    if joined_left(l, p, r) {
        let q = p - 1;
        let a = l.recs[q];
        let left = glue(a, r);
        if joined_right(l, p, r) {
            let b = l.recs[p];
            let whole = glue(left, b);
            return splice(l, q, p + 1, whole);
        }
        return splice(l, q, p, left);
    }
    if joined_right(l, p, r) {
        let b = l.recs[p];
        let right = glue(r, b);
        return splice(l, p, p + 1, right);
    }
    splice(l, p, p, r)
}

// The record put where its start belongs, joined with its neighbours of the same owner. 34 above 64 records, 32 unless the list is
// valid and stays so, 34 where more than 64 are left.
pub fn rmap_insert(rmap: RmapList, rec: RmapRec) -> Inserted
    ensures { result ≡ inserted rmap rec }
{
    if rmap.len > 64 {
        return refused(refusals::TOO_MANY_RECORDS);
    }
    let p = place(rmap, rec.start);
    if !can_take(rmap, p, rec) {
        return refused(refusals::NOT_VALID);
    }
    insert_at(rmap, p, rec)
}
