// The bytes of the trees' records one after the other. The Rust's alloc_recs, inobt_recs and rmap_recs of structs/btree.rs.
#![tactic(auto)]

ghost use Rattle.std.specs.Prelude.{◌≡◌, List, ℕ, ◌+◌, ◌≤◌, ◌<◌, length, take};
ghost use Rattle.std.proofs.Common.{rules};
ghost use Rattle.endian.specs.Bytes.{patch};
ghost use Rattle.btree.proofs.Laws.{alloc-size, inobt-size, rmap-size};
ghost use Rattle.structs.specs.Written.{Written};
ghost use Rattle.btree.specs.Records.{records_bytes, recs_number, alloc_bytes, inobt_bytes, rmap_bytes};

use btree::records::{ALLOC_REC, INOBT_REC, RMAP_REC};
use btree::{AllocRec, InobtRec, RmapRec};
use refusals::TOO_MANY_RECORDS;

// 27 unless `len` is what `count` records of `size` bytes need, 34 above 64.
fn number(size: usize, count: usize, len: usize) -> u32
    requires { 0 < size }
    ensures { result ≡ recs_number size count len }
{
    if len / size != count {
        return refusals::WRONG_LENGTH;
    }
    if len % size != 0 {
        return refusals::WRONG_LENGTH;
    }
    if 64 < count {
        return TOO_MANY_RECORDS;
    }
    0
}

// A record of a tree, with the bytes that stand for it in a leaf.
trait Record: Copy {
    // What else decides about these: whether there are sparse inodes, for a chunk's record.
    type Form: Copy;

    const SIZE: usize;

    ghost SIZE: { ℕ };

    ghost stored: { Self.Form → Self → List ℕ };

    // The record's bytes, from `o` on.
    fn put(self, form: Self::Form, out: &mut [u8], o: usize)
        requires { o + SIZE ≤ length out.old }
        ensures { out.new ≡ patch o (stored form self) out.old };

    ghost some: { 0 < SIZE };

    ghost fills: { (form : Self.Form) (r : Self) → length (stored form r) ≡ SIZE };
}

impl Record for AllocRec {
    type Form = ();

    const SIZE: usize = ALLOC_REC;

    ghost SIZE = { 8 };

    ghost stored = { λ form r. alloc_bytes r };

    fn put(self, _form: (), out: &mut [u8], o: usize) {
        endian::put32(out, o + 4, self.count); // ar_blockcount
        endian::put32(out, o, self.start); // ar_startblock
    }

    ghost some = { Prim.search rules };

    ghost fills = { λ form r. alloc-size r };
}

impl Record for InobtRec {
    type Form = bool;

    const SIZE: usize = INOBT_REC;

    ghost SIZE = { 16 };

    ghost stored = { inobt_bytes };

    // Without sparse inodes the free count is a 32-bit number in the place of holes, count and free count.
    fn put(self, sparse: bool, out: &mut [u8], o: usize) {
        endian::put64(out, o + 8, self.free); // ir_free
        if sparse {
            endian::put8(out, o + 7, self.freecount); // ir_u.sp.ir_freecount
            endian::put8(out, o + 6, self.count); // ir_u.sp.ir_count
            endian::put16(out, o + 4, self.holemask); // ir_u.sp.ir_holemask
        } else {
            endian::put32(out, o + 4, u32::from(self.freecount)); // ir_u.f.ir_freecount
        }
        endian::put32(out, o, self.startino); // ir_startino
    }

    ghost some = { Prim.search rules };

    ghost fills = { inobt-size };
}

impl Record for RmapRec {
    type Form = ();

    const SIZE: usize = RMAP_REC;

    ghost SIZE = { 24 };

    ghost stored = { λ form r. rmap_bytes r };

    fn put(self, _form: (), out: &mut [u8], o: usize) {
        endian::put64(out, o + 16, 0); // rm_offset
        endian::put64(out, o + 8, self.owner); // rm_owner
        endian::put32(out, o + 4, self.count); // rm_blockcount
        endian::put32(out, o, self.start); // rm_startblock
    }

    ghost some = { Prim.search rules };

    ghost fills = { λ form r. rmap-size r };
}

// The first `count` records one after the other. 27 unless `out` is as long as they need, 34 above 64.
fn put_records<R: Record>(recs: &[R], count: usize, form: R::Form, out: &mut [u8]) -> u32
    requires { 64 ≤ length recs.now }
    ensures { Written (recs_number R.SIZE count (length out.old)) (records_bytes (R.stored form) (take count recs.now)) out.old
        result out.new }
{
    let refusal = number(R::SIZE, count, out.len());
    if refusal != 0 {
        return refusal;
    }
    for (i, r) in recs[..count].iter().enumerate() {
        r.put(form, out, R::SIZE * i);
    }
    0
}

// The Rust's alloc_recs over an array of 64 (crate btree_slices has it over a lent slice): the first `count` free extents. 27 unless `out`
// is as long as they need, 34 above 64.
pub fn alloc_recs_64(recs: [AllocRec; 64], count: usize, out: &mut [u8]) -> u32
    ensures { Written (recs_number 8 count (length out.old)) (records_bytes alloc_bytes (take count recs)) out.old
        result out.new }
{
    put_records(&recs, count, (), out)
}

// The Rust's inobt_recs: the first `count` inode chunks.
pub fn inobt_recs_64(recs: [InobtRec; 64], count: usize, sparse: bool, out: &mut [u8]) -> u32
    ensures { Written (recs_number 16 count (length out.old)) (records_bytes (inobt_bytes sparse) (take count recs))
        out.old result out.new }
{
    put_records(&recs, count, sparse, out)
}

// The Rust's rmap_recs over an array of 64: the first `count` reverse mappings.
pub fn rmap_recs_64(recs: [RmapRec; 64], count: usize, out: &mut [u8]) -> u32
    ensures { Written (recs_number 24 count (length out.old)) (records_bytes rmap_bytes (take count recs)) out.old
        result out.new }
{
    put_records(&recs, count, (), out)
}
