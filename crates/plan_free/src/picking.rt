// The record from which the free list is filled.
ghost use Rattle.std.specs.Prelude.{◌≡◌, ◌≤◌};
ghost use Rattle.seqs.specs.Lists.{fold};
ghost use Rattle.plan_free.specs.Free.{free_of, unpicked, no_choice, ahead, next, fitter, bigger, pick_answer};

use crate::{Choice, FreeList};
use btree::AllocRec;

// No record, beside a number.
fn unpicked(number: u32) -> Choice
    ensures { result ≡ unpicked number }
{
    let rec = AllocRec { start: 0, count: 0 };
    Choice {
        number,
        found: false,
        rec,
    }
}

// Size p is less than size q, or they are equal and start s is lower than start t.
fn is_ahead(p: u32, q: u32, s: u32, t: u32) -> bool
    ensures { result ≡ ahead p q s t }
{
    (p, s) < (q, t)
}

// r in the place of c where it passes a test, and wins over c or nothing is there.
fn keep(passes: bool, wins: bool, c: Choice, r: AllocRec) -> Choice
    ensures { result ≡ next passes wins c r }
{
    if passes && (!c.found || wins) {
        Choice {
            number: 0,
            found: true,
            rec: r,
        }
    } else {
        c
    }
}

// Of c and r, the better fit; r alone is tested.
fn better_fit(want: u64, c: Choice, r: AllocRec) -> Choice
    ensures { result ≡ fitter want c r }
{
    let a = c.rec;
    let wins = is_ahead(r.count, a.count, r.start, a.start);
    keep(want <= (r.count as u64), wins, c, r)
}

// Of c and r, the larger.
fn better_size(c: Choice, r: AllocRec) -> Choice
    ensures { result ≡ bigger c r }
{
    let a = c.rec;
    let wins = is_ahead(a.count, r.count, r.start, a.start);
    keep(true, wins, c, r)
}

// The smallest record that has `want` blocks, the lowest start on a tie.
fn best_fit(l: FreeList, want: u64) -> Choice
    requires { l.len ≤ 64 }
    ensures { result ≡ fold (fitter want) no_choice (free_of l) }
{
    l.recs[..l.len]
        .iter()
        .fold(unpicked(0), |c, r| better_fit(want, c, *r))
}

// The largest record, the lowest start on a tie.
fn largest(l: FreeList) -> Choice
    requires { l.len ≤ 64 }
    ensures { result ≡ fold bigger no_choice (free_of l) }
{
    l.recs[..l.len]
        .iter()
        .fold(unpicked(0), |c, r| better_size(c, *r))
}

// The smallest record that has `want` blocks, else the largest; none of a list of none. 34 above 64 records.
pub fn pick(l: FreeList, want: u64) -> Choice
    ensures { result ≡ pick_answer l want }
{
    if l.len > 64 {
        return unpicked(refusals::TOO_MANY_RECORDS);
    }
    let c = best_fit(l, want);
    if c.found {
        return c;
    }
    largest(l)
}
