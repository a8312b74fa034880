// Inode chunks, clusters and their alignment.
ghost use Rattle.std.specs.Prelude.{◌≡◌, ◌+◌, ◌<◌, ◌^◌};
ghost use Rattle.geometry_answers.specs.Named.{is_answer};
ghost use Rattle.geometry_layout.specs.Places.{chunk_of, cluster_of, align_of, sparse_align, round_up, aligned, root_chunk_of};
ghost use Rattle.geometry_counts.specs.Known.{known};

use crate::head::freelist_of;
use crate::known;
use arith::numbers::{div_ceil, quotient};
use geometry::Geometry;
use geometry::log_size::prealloc_of;
use geometry_answers::is_answer;
use params::Features;

// Blocks of an inode chunk, for these sizes.
pub fn chunk_of(inode: u32, bs: u64) -> u64
    ensures { result ≡ chunk_of inode bs }
{
    quotient(Geometry::INODES_PER_CHUNK * (inode as u64), bs)
}

// Blocks of an inode chunk.
pub fn chunk_blocks(g: Geometry) -> Result<u64, u32>
    ensures { result ≡ known (is_answer g) (chunk_of g.inodesize g.blocksize) }
{
    known(g, chunk_of(g.inodesize, g.blocksize as u64))
}

// Blocks of an inode cluster, for these sizes.
pub fn cluster_of(inode: u32, bs: u64) -> u64
    ensures { result ≡ cluster_of inode bs }
{
    let bytes = Geometry::INODE_BIG_CLUSTER_SIZE * ((inode / Geometry::DINODE_MIN_SIZE) as u64);
    quotient(bytes, bs)
}

// The alignment of inode clusters, in blocks.
pub fn cluster_align(g: Geometry) -> Result<u64, u32>
    ensures { result ≡ known (is_answer g) (cluster_of g.inodesize g.blocksize) }
{
    known(g, cluster_of(g.inodesize, g.blocksize as u64))
}

// The alignment of chunks, for these sizes.
pub fn align_of(sparse: bool, inode: u32, bs: u64) -> u64
    ensures { result ≡ align_of sparse inode bs }
{
    if sparse {
        chunk_of(inode, bs)
    } else {
        cluster_of(inode, bs)
    }
}

// The alignment of chunks, in blocks.
pub fn inoalignmt(g: Geometry) -> Result<u64, u32>
    ensures { result ≡ known (is_answer g) (align_of g.features.sparse g.inodesize g.blocksize) }
{
    known(
        g,
        align_of(g.features.sparse, g.inodesize, g.blocksize as u64),
    )
}

// The alignment of sparse chunks in blocks, 0 without them, for these sizes.
pub fn spino_of(sparse: bool, inode: u32, bs: u64) -> u64
    ensures { result ≡ sparse_align sparse inode bs }
{
    if !sparse {
        return 0;
    }
    cluster_of(inode, bs)
}

// The alignment of sparse chunks in blocks, 0 without them.
pub fn spino_align(g: Geometry) -> Result<u32, u32>
    ensures { result ≡ known (is_answer g) (sparse_align g.features.sparse g.inodesize g.blocksize) }
{
    if !is_answer(g) {
        return Err(refusals::NO_ANSWER);
    }
    let align = spino_of(g.features.sparse, g.inodesize, g.blocksize as u64);
    Ok(align as u32)
}

// n rounded up to a multiple of m.
fn round_up(n: u64, m: u64) -> u64
    requires { (0 < n) × (0 < m) × (n + m < 2 ^ 64) }
    ensures { result ≡ round_up n m }
{
    div_ceil(n, m) * m
}

// n aligned to m.
fn align_to(n: u64, m: u64) -> u64
    requires { (0 < n) × (n + m < 2 ^ 64) }
    ensures { result ≡ aligned n m }
{
    if 1 < m { round_up(n, m) } else { n }
}

// The root chunk's first block in group 0, for these features and sizes.
pub fn root_chunk_of(f: Features, sector: u32, inode: u32, bs: u64) -> u64
    ensures { result ≡ root_chunk_of f sector inode bs }
{
    let first = prealloc_of(f, sector, bs) + freelist_of(f);
    align_to(first, align_of(f.sparse, inode, bs))
}

// The root chunk's first block in group 0.
pub fn root_chunk_agbno(g: Geometry) -> Result<u64, u32>
    ensures { result ≡ known (is_answer g) (root_chunk_of g.features g.sectsize g.inodesize g.blocksize) }
{
    known(
        g,
        root_chunk_of(g.features, g.sectsize, g.inodesize, g.blocksize as u64),
    )
}
