// The list of a run's written records, piece by piece: zeros and the log, the head of each group, the root chunk, and the end with the
// finished superblock. The Rust's format of format.rs.
#![tactic(auto)]

ghost use Rattle.std.specs.Prelude.{length};
ghost use Rattle.endian.specs.Bytes.{patch};
ghost use Rattle.structs.specs.Written.{Written};
ghost use Rattle.list_records.specs.Records.{list_bytes};
ghost use Rattle.list_spec.specs.Listing.{list_piece};
ghost use Rattle.list_lengths.specs.Pieces.{write_number};
ghost use Rattle.list_write.specs.Writing.{part_bytes};

pub mod split; // split.rt: one record, and a write that is split into its blocks
pub mod parts; // parts.rt: the part that each piece is split from
pub mod pieces; // pieces.rt: the records of each piece

use crate::parts::make_part;
use crate::pieces::put_piece;
use list_lengths::parts::part_of;
use list_lengths::write_number;
use run::Run;

// Piece k of the list of a run on a device of so many bytes: all of its bytes. The part that it is split from is made in the first bytes
// of `work`. 31, 25, 26, 29 where there is no piece k, 27 for a buffer of another length or too short a work buffer.
pub fn write_piece(run: Run, device: u64, k: u64, work: &mut [u8], buf: &mut [u8]) -> u32
    ensures { (Written (write_number run k (length buf.old) (length work.old))
        (list_bytes (list_piece run device k)) buf.old result buf.new)
        × (Written (write_number run k (length buf.old) (length work.old))
        (patch 0 (part_bytes run k) work.old) work.old result work.new) }
{
    let n = write_number(run, k, buf.len(), work.len());
    if n != 0 {
        return n;
    }
    let g = run.geometry;
    let n = part_of(
        g.features,
        g.sectsize,
        g.inodesize,
        g.blocksize,
        g.agcount,
        k,
    );
    make_part(run, k, &mut work[0..0 + n]);
    put_piece(run, device, k, &work[0..0 + n], buf);
    0
}
