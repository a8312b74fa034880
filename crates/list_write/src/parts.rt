// The part that each piece is split from.
ghost use Rattle.std.specs.Prelude.{◌≡◌, ◌+◌, ◌*◌, ◌<◌, length};
ghost use Rattle.geometry_places.specs.Answers.{root_chunk};
ghost use Rattle.chunk.specs.Chunk.{chunk_bytes};
ghost use Rattle.list_spec.specs.Listing.{chunk_blocks};
ghost use Rattle.list_lengths.specs.Pieces.{part_length, format_number};
ghost use Rattle.list_write.specs.Writing.{part_bytes};

use chunk::root_chunk;
use geometry_counts::inodes::root_chunk_of;
use group_bytes::{head_left, head_written, log_block};
use run::Run;

// The root chunk.
fn make_root(run: Run, work: &mut [u8])
    requires { (format_number run ≡ 0) × (length work.old ≡ chunk_blocks run.geometry * run.geometry.blocksize) }
    ensures { work.new ≡ chunk_bytes run.geometry (root_chunk run.geometry) run.uuid run.time run.seed }
{
    let g = run.geometry;
    let uuid = run.uuid;
    let at = root_chunk_of(g.features, g.sectsize, g.inodesize, g.blocksize as u64);
    root_chunk(g, at, &uuid, run.time, run.seed, work);
}

// The part of piece k: the log's first block, a head, the root chunk, or group 0's head with the finished superblock.
pub(crate) fn make_part(run: Run, k: u64, work: &mut [u8])
    requires { (format_number run ≡ 0) × (k < run.geometry.agcount + 3) × (length work.old ≡ part_length run.geometry k) }
    ensures { work.new ≡ part_bytes run k }
{
    let g = run.geometry;
    let uuid = run.uuid;
    if k == 0 {
        log_block(g, uuid, work);
        return;
    }
    if k <= g.agcount {
        head_written(g, uuid, k - 1, work);
        return;
    }
    if k - 1 == g.agcount {
        make_root(run, work);
        return;
    }
    head_left(g, uuid, 0, work);
}
