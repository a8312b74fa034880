// Block, realtime extent and log stripe unit.
ghost use Rattle.std.specs.Prelude.{◌≡◌};
ghost use Rattle.geometry_answers.specs.Named.{is_answer};
ghost use Rattle.geometry_layout.specs.Places.{rext_size, lsunit_bytes, logsunit_of};
ghost use Rattle.geometry_counts.specs.Known.{known};

use crate::known;
use arith::numbers::quotient_u32;
use geometry::Geometry;

// Bytes of a block.
pub fn bs(g: Geometry) -> Result<u64, u32>
    ensures { result ≡ known (is_answer g) g.blocksize }
{
    known(g, g.blocksize as u64)
}

// Blocks of a realtime extent, for this block size.
pub fn rext_of(block: u32) -> u32
    ensures { result ≡ rext_size block }
{
    if block < Geometry::MIN_RTEXTSIZE {
        quotient_u32(Geometry::MIN_RTEXTSIZE, block)
    } else {
        1
    }
}

// Blocks of a realtime extent.
pub fn rextsize(g: Geometry) -> Result<u32, u32>
    ensures { result ≡ known (is_answer g) (rext_size g.blocksize) }
{
    known(g, rext_of(g.blocksize))
}

// Bytes of the log stripe unit, 0 for none, for these sizes.
pub fn lsunit_of(lsector: u32, block: u32) -> u32
    ensures { result ≡ lsunit_bytes lsector block }
{
    if Geometry::LOG_HEADER_SIZE < lsector {
        block
    } else {
        0
    }
}

// Bytes of the log stripe unit, 0 for none.
pub fn lsunit_bytes(g: Geometry) -> Result<u32, u32>
    ensures { result ≡ known (is_answer g) (lsunit_bytes g.lsectsize g.blocksize) }
{
    known(g, lsunit_of(g.lsectsize, g.blocksize))
}

// A log stripe unit as the superblock has it, 1 for none.
pub fn logsunit_of(unit: u32) -> u32
    ensures { result ≡ logsunit_of unit }
{
    unit.max(1)
}

// The log stripe unit as the superblock has it, 1 for none.
pub fn logsunit(g: Geometry) -> Result<u32, u32>
    ensures { result ≡ known (is_answer g) (logsunit_of (lsunit_bytes g.lsectsize g.blocksize)) }
{
    known(g, logsunit_of(lsunit_of(g.lsectsize, g.blocksize)))
}
