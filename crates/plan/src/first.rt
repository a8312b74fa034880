// The records of a group before anything is taken: free extents, and the reverse mappings of head and log.
ghost use Rattle.std.specs.Prelude.{◌≡◌, ◌+◌};
ghost use Rattle.seqs.specs.Lists.{appended};
ghost use Rattle.plan_free.specs.Free.{pack_free, of_free, to_free};
ghost use Rattle.plan_rmap.specs.Rmap.{pack_rmap, of_rmap, to_rmap};
ghost use Rattle.plan_site.specs.Sites.{SoundSite};
ghost use Rattle.plan.specs.Plan.{gap, free_at_first, head_map, refc_map, log_map, rmap_at_first, at_first};

use crate::Work;
use crate::fill::no_blocks;
use btree::owner;
use btree::records::{AllocRec, RmapRec};
use plan_free::FreeList;
use plan_rmap::RmapList;
use plan_site::Site;

// The free record from a up to b, if there is one.
fn put_gap(l: FreeList, a: u32, b: u32) -> FreeList
    ensures { result ≡ to_free (appended (of_free l) (gap a b)) }
{
    if a < b {
        let r = AllocRec {
            start: a,
            count: b - a,
        };
        return plan_free::push(l, r);
    }
    l
}

// Everything after the head, less the log in its group.
fn first_free(s: Site) -> FreeList
    requires { SoundSite s }
    ensures { result ≡ pack_free (free_at_first s) }
{
    let none = plan_free::empty();
    if s.has_log {
        let one = put_gap(none, s.head, s.log_at);
        return put_gap(one, s.log_at + s.log_blocks, s.length);
    }
    let r = AllocRec {
        start: s.head,
        count: s.length - s.head,
    };
    plan_free::push(none, r)
}

// The head by its parts.
fn put_head(l: RmapList, s: Site) -> RmapList
    requires { SoundSite s }
    ensures { result ≡ to_rmap (appended (of_rmap l) (head_map s)) }
{
    let a = plan_rmap::push(
        l,
        RmapRec {
            start: 0,
            count: s.bno,
            owner: owner::FS,
        },
    );
    let b = plan_rmap::push(
        a,
        RmapRec {
            start: s.bno,
            count: 2,
            owner: owner::AG,
        },
    );
    let c = plan_rmap::push(
        b,
        RmapRec {
            start: s.ibt,
            count: s.rmap_at - s.ibt,
            owner: owner::INOBT,
        },
    );
    plan_rmap::push(
        c,
        RmapRec {
            start: s.rmap_at,
            count: 1,
            owner: owner::AG,
        },
    )
}

fn put_refc(l: RmapList, s: Site) -> RmapList
    ensures { result ≡ to_rmap (appended (of_rmap l) (refc_map s)) }
{
    if s.reflink {
        let r = RmapRec {
            start: s.refc_at,
            count: 1,
            owner: owner::REFC,
        };
        return plan_rmap::push(l, r);
    }
    l
}

fn put_log(l: RmapList, s: Site) -> RmapList
    ensures { result ≡ to_rmap (appended (of_rmap l) (log_map s)) }
{
    if s.has_log {
        let r = RmapRec {
            start: s.log_at,
            count: s.log_blocks,
            owner: owner::LOG,
        };
        return plan_rmap::push(l, r);
    }
    l
}

fn first_rmap(s: Site) -> RmapList
    requires { SoundSite s }
    ensures { result ≡ pack_rmap (rmap_at_first s) }
{
    let none = plan_rmap::empty();
    if s.rmapbt {
        let a = put_head(none, s);
        let b = put_refc(a, s);
        return put_log(b, s);
    }
    none
}

pub(crate) fn start_work(s: Site) -> Work
    requires { SoundSite s }
    ensures { result ≡ at_first s }
{
    let free = first_free(s);
    let agfl = no_blocks();
    let rmap = first_rmap(s);
    Work {
        number: 0,
        want: s.need,
        rmapbt: s.rmapbt,
        free,
        agfl,
        rmap,
    }
}
