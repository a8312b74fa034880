// The log's start, the root directory's inode, and the free blocks before the root chunk is taken.
ghost use Rattle.std.specs.Prelude.{◌≡◌};
ghost use Rattle.geometry_answers.specs.Named.{is_answer};
ghost use Rattle.geometry_counts.specs.Known.{known};
ghost use Rattle.geometry_places.specs.Answers.{log_start, root_ino, initial_fdblocks};

use crate::units::{fsb_of, ino_of};
use geometry::Geometry;
use geometry::log_size::prealloc_of;
use geometry_answers::is_answer;
use geometry_counts::inodes::root_chunk_of;

// The log's first block, as a file system block.
pub fn logstart(g: Geometry) -> Result<u64, u32>
    ensures { result ≡ known (is_answer g) (log_start g) }
{
    if !is_answer(g) {
        return Err(refusals::NO_ANSWER);
    }
    Ok(fsb_of(g.agblklog, g.logagno, g.log_agbno))
}

// The root directory's inode number.
pub fn rootino(g: Geometry) -> Result<u64, u32>
    ensures { result ≡ known (is_answer g) (root_ino g) }
{
    if !is_answer(g) {
        return Err(refusals::NO_ANSWER);
    }
    let block = root_chunk_of(g.features, g.sectsize, g.inodesize, g.blocksize as u64);
    Ok(ino_of(g.agblklog, g.inopblog, 0, block, 0))
}

// Free blocks before the root chunk is taken: what the secondary superblocks have.
pub fn initial_fdblocks(g: Geometry) -> Result<u64, u32>
    ensures { result ≡ known (is_answer g) (initial_fdblocks g) }
{
    if !is_answer(g) {
        return Err(refusals::NO_ANSWER);
    }
    let heads = g.agcount * prealloc_of(g.features, g.sectsize, g.blocksize as u64);
    Ok(g.dblocks.saturating_sub(heads).saturating_sub(g.logblocks))
}
