// The root inode chunk, taken out of the free records of group 0.
ghost use Rattle.std.specs.Prelude.{◌≡◌};
ghost use Rattle.plan.specs.Plan.{chunked};

use crate::Work;
use crate::fill::{fail, finish, note_owner};
use btree::owner;
use btree::records::RmapRec;
use plan_site::Site;

pub(crate) fn take_chunk(s: Site, w: Work) -> Work
    ensures { result ≡ chunked s w }
{
    if w.number == 0 {
        let free = w.free;
        let t = plan_free::take(free, s.chunk_at as u64, s.chunk_blocks as u64);
        let number = t.number;
        if number == 0 {
            let list = t.list;
            let agfl = w.agfl;
            let rm = w.rmap;
            let r = RmapRec {
                start: s.chunk_at,
                count: s.chunk_blocks,
                owner: owner::INODES,
            };
            let m = note_owner(w.rmapbt, rm, r);
            return finish(w, w.want, list, agfl, m);
        }
        return fail(w, number);
    }
    w
}
