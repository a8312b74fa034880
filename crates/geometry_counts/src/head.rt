// The head of a group and its free list.
ghost use Rattle.std.specs.Prelude.{◌≡◌, ◌+◌};
ghost use Rattle.geometry.specs.Log.{header_of, prealloc_of};
ghost use Rattle.geometry_answers.specs.Named.{is_answer};
ghost use Rattle.geometry_layout.specs.Places.{cnt_block, ibt_block, fibt_block, rmap_block, refc_block, usable_of, agfl_size, freelist_of};
ghost use Rattle.geometry_counts.specs.Known.{known};

use crate::known;
use geometry::log_size::{header_of, prealloc_of};
use geometry::{Geometry, log_size};
use params::Features;

// Blocks of the four header sectors.
pub fn header_blocks(g: Geometry) -> Result<u64, u32>
    ensures { result ≡ known (is_answer g) (header_of g.sectsize g.blocksize) }
{
    known(g, header_of(g.sectsize, g.blocksize as u64))
}

// The root of the free-space tree by block.
pub fn bno_block(g: Geometry) -> Result<u64, u32>
    ensures { result ≡ known (is_answer g) (header_of g.sectsize g.blocksize) }
{
    header_blocks(g)
}

// The block that lies n blocks after the header.
fn after_header(sector: u32, bs: u64, n: u8) -> u64
    ensures { result ≡ header_of sector bs + n }
{
    header_of(sector, bs) + (n as u64)
}

// The root of the free-space tree by count.
pub fn cnt_block(g: Geometry) -> Result<u64, u32>
    ensures { result ≡ known (is_answer g) (cnt_block (header_of g.sectsize g.blocksize)) }
{
    known(g, after_header(g.sectsize, g.blocksize as u64, 1))
}

// The root of the inode tree.
pub fn ibt_block(g: Geometry) -> Result<u64, u32>
    ensures { result ≡ known (is_answer g) (ibt_block (header_of g.sectsize g.blocksize)) }
{
    known(g, after_header(g.sectsize, g.blocksize as u64, 2))
}

// The root of the free inode tree.
pub fn fibt_block(g: Geometry) -> Result<u64, u32>
    ensures { result ≡ known (is_answer g) (fibt_block (header_of g.sectsize g.blocksize)) }
{
    known(g, after_header(g.sectsize, g.blocksize as u64, 3))
}

// The root of the reverse mapping tree, for these features and sizes.
fn rmap_of(f: Features, sector: u32, bs: u64) -> u64
    ensures { result ≡ rmap_block f (header_of sector bs) }
{
    header_of(sector, bs) + 3 + u64::from(f.finobt)
}

// The root of the reference count tree, for these features and sizes.
fn refc_of(f: Features, sector: u32, bs: u64) -> u64
    ensures { result ≡ refc_block f (header_of sector bs) }
{
    rmap_of(f, sector, bs) + u64::from(f.rmapbt)
}

// The root of the reverse mapping tree.
pub fn rmap_block(g: Geometry) -> Result<u64, u32>
    ensures { result ≡ known (is_answer g) (rmap_block g.features (header_of g.sectsize g.blocksize)) }
{
    known(g, rmap_of(g.features, g.sectsize, g.blocksize as u64))
}

// The root of the reference count tree.
pub fn refc_block(g: Geometry) -> Result<u64, u32>
    ensures { result ≡ known (is_answer g) (refc_block g.features (header_of g.sectsize g.blocksize)) }
{
    known(g, refc_of(g.features, g.sectsize, g.blocksize as u64))
}

// The head of a group, in blocks.
pub fn prealloc_blocks(g: Geometry) -> Result<u64, u32>
    ensures { result ≡ known (is_answer g) (prealloc_of g.features g.sectsize g.blocksize) }
{
    known(g, prealloc_of(g.features, g.sectsize, g.blocksize as u64))
}

// Blocks of a group that can be handed out, for these features and sizes.
fn usable_of(f: Features, sector: u32, bs: u64, agsize: u64) -> u64
    ensures { result ≡ usable_of agsize (prealloc_of f sector bs) }
{
    let kept = prealloc_of(f, sector, bs) + Geometry::ALLOCBT_AGFL_RESERVE;
    agsize.saturating_sub(kept)
}

// Blocks of a group that can be handed out.
pub fn ag_max_usable(g: Geometry) -> Result<u64, u32>
    ensures { result ≡ known (is_answer g) (usable_of g.agsize (prealloc_of g.features g.sectsize g.blocksize)) }
{
    known(
        g,
        usable_of(g.features, g.sectsize, g.blocksize as u64, g.agsize),
    )
}

// Slots of the free list's sector.
pub fn agfl_size(g: Geometry) -> Result<u32, u32>
    ensures { result ≡ known (is_answer g) (agfl_size g.sectsize) }
{
    known(g, g.sectsize.saturating_sub(Geometry::AGFL_HEADER) / 4)
}

// Blocks of the free list with these features.
pub fn freelist_of(f: Features) -> u64
    ensures { result ≡ freelist_of f }
{
    log_size::freelist_of(f)
}

// Blocks of a group's free list.
pub fn min_freelist(g: Geometry) -> Result<u64, u32>
    ensures { result ≡ known (is_answer g) (freelist_of g.features) }
{
    known(g, freelist_of(g.features))
}
