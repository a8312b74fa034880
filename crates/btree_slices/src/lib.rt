// Records of a lent slice and their bytes, one record after the other: the Rust's alloc_recs and rmap_recs as they stand there.
#![tactic(auto)]

ghost use Rattle.std.specs.Prelude.{◌≡◌, List, ℕ, ◌+◌, ◌*◌, ◌≤◌, ◌<◌, length};
ghost use Rattle.std.proofs.Common.{rules};
ghost use Rattle.endian.specs.Bytes.{patch};
ghost use Rattle.structs.specs.Written.{Written};
ghost use Rattle.btree.specs.Records.{records_bytes, recs_number, alloc_bytes, rmap_bytes};
ghost use Rattle.btree.proofs.Laws.{alloc-size, rmap-size};

use btree::records::{ALLOC_REC, RMAP_REC};
use btree::{AllocRec, RmapRec};

// 27 unless `len` is what `count` records of `size` bytes need, 34 above 64.
fn number(size: usize, count: usize, len: usize) -> u32
    requires { 0 < size }
    ensures { result ≡ recs_number size count len }
{
    if len / size != count {
        return refusals::WRONG_LENGTH;
    }
    if len % size != 0 {
        return refusals::WRONG_LENGTH;
    }
    if 64 < count {
        return refusals::TOO_MANY_RECORDS;
    }
    0
}

// A record of a tree, with the bytes that stand for it in a leaf.
trait Record: Copy {
    const SIZE: usize;

    ghost SIZE: { ℕ };

    ghost stored: { Self → List ℕ };

    // The record's bytes, from `o` on.
    fn put(self, out: &mut [u8], o: usize)
        requires { o + SIZE ≤ length out.old }
        ensures { out.new ≡ patch o (stored self) out.old };

    ghost some: { 0 < SIZE };

    ghost fills: { (r : Self) → length (stored r) ≡ SIZE };
}

impl Record for AllocRec {
    const SIZE: usize = ALLOC_REC;

    ghost SIZE = { 8 };

    ghost stored = { alloc_bytes };

    fn put(self, out: &mut [u8], o: usize) {
        endian::put32(out, o + 4, self.count); // ar_blockcount
        endian::put32(out, o, self.start); // ar_startblock
    }

    ghost some = { Prim.search rules };

    ghost fills = { alloc-size };
}

impl Record for RmapRec {
    const SIZE: usize = RMAP_REC;

    ghost SIZE = { 24 };

    ghost stored = { rmap_bytes };

    fn put(self, out: &mut [u8], o: usize) {
        endian::put64(out, o + 16, 0); // rm_offset
        endian::put64(out, o + 8, self.owner); // rm_owner
        endian::put32(out, o + 4, self.count); // rm_blockcount
        endian::put32(out, o, self.start); // rm_startblock
    }

    ghost some = { Prim.search rules };

    ghost fills = { rmap-size };
}

// The records one after the other, from the start of `out` on.
fn put_all<R: Record>(recs: &[R], out: &mut [u8])
    requires { R.SIZE * length recs.now ≤ length out.old }
    ensures { out.new ≡ patch 0 (records_bytes R.stored recs.now) out.old }
{
    for (i, r) in recs.iter().enumerate() {
        r.put(out, R::SIZE * i);
    }
}

// The records of the list. 27 unless `out` is as long as they need, 34 above 64.
fn put_records<R: Record>(recs: &[R], out: &mut [u8]) -> u32
    ensures { Written (recs_number R.SIZE (length recs.now) (length out.old))
        (records_bytes R.stored recs.now) out.old result out.new }
{
    let refusal = number(R::SIZE, recs.len(), out.len());
    if refusal != 0 {
        return refusal;
    }
    put_all(recs, out);
    0
}

// The free extents of the list. 27 unless `out` is as long as they need, 34 above 64.
pub fn alloc_recs(recs: &[AllocRec], out: &mut [u8]) -> u32
    ensures { Written (recs_number 8 (length recs.now) (length out.old))
        (records_bytes alloc_bytes recs.now) out.old result out.new }
{
    put_records(recs, out)
}

// The reverse mappings of the list.
pub fn rmap_recs(recs: &[RmapRec], out: &mut [u8]) -> u32
    ensures { Written (recs_number 24 (length recs.now) (length out.old))
        (records_bytes rmap_bytes recs.now) out.old result out.new }
{
    put_records(recs, out)
}
