// Block, sector and inode size, and the refusals that they meet.
ghost use Rattle.std.specs.Prelude.{◌≡◌};
ghost use Rattle.refusals.specs.Table.{first};
ghost use Rattle.geometry.specs.Sizes.{block_of, default_sector, sector_of, inode_of, sizes_of, sizes_refusals};

use arith::powers::pow2_log;
use params::Params;
use refusals::first;

// The limits of sizes, under the Rust's names where it has them.
pub const MIN_CRC_BLOCKSIZE: u32 = 1024; // bytes

pub const MAX_SUPPORTED_BLOCKSIZE: u32 = 16384; // bytes

pub const DEFAULT_BLOCKSIZE: u32 = 4096; // bytes

pub const MIN_SECTORSIZE: u32 = 512; // bytes

pub const MAX_SECTORSIZE: u32 = 32768; // bytes

pub const DEFAULT_INODESIZE: u32 = 512; // bytes

pub const DINODE_MAX_SIZE: u32 = 2048; // bytes

// The sizes that were chosen, and the logical sector, at least 512; all in bytes.
#[derive(Clone, Copy)]
pub struct Sizes {
    pub block: u32,
    pub sector: u32,
    pub inode: u32,
    pub logical: u32,
}

// The block size.
fn block_of(option: Option<u32>) -> u32
    ensures { result ≡ block_of option }
{
    match option {
        Some(n) => n,
        None => DEFAULT_BLOCKSIZE,
    }
}

// The sector size where none is given.
fn default_sector(block: u32, logical: u32, physical: u32) -> u32
    ensures { result ≡ default_sector block logical physical }
{
    let larger = physical.max(logical);
    if MAX_SECTORSIZE < larger {
        return logical;
    }
    if block < larger && logical <= block {
        return logical;
    }
    larger
}

// The sector size.
fn sector_of(option: Option<u32>, block: u32, logical: u32, physical: u32) -> u32
    ensures { result ≡ sector_of option block logical physical }
{
    match option {
        Some(n) => n,
        None => default_sector(block, logical, physical),
    }
}

// The inode size.
fn inode_of(option: Option<u32>) -> u32
    ensures { result ≡ inode_of option }
{
    match option {
        Some(n) => n,
        None => DEFAULT_INODESIZE,
    }
}

// The sizes for the options and the device's sectors.
pub fn chosen_sizes(params: Params, logical: u32, physical: u32) -> Sizes
    ensures { result ≡ sizes_of params logical physical }
{
    let block = block_of(params.block_size);
    let least = logical.max(MIN_SECTORSIZE);
    Sizes {
        block,
        sector: sector_of(params.sector_size, block, least, physical),
        inode: inode_of(params.inode_size),
        logical: least,
    }
}

// Refusals 2 to 8, the last test first; `pow2_log` is 0 of a number that is no power of two from 512 to 65536.
pub fn sizes_refusal(block: u32, sector: u32, inode: u32, logical: u32, rest: u32) -> u32
    ensures { result ≡ first (sizes_refusals block sector inode logical) rest }
{
    let n = first(block / 2 < inode, refusals::BAD_INODE, rest);
    let n = first(DINODE_MAX_SIZE < inode, refusals::BAD_INODE, n);
    let n = first(pow2_log(inode) == 0, refusals::BAD_INODE, n);
    let n = first(sector < logical, refusals::SECTOR_BELOW_LOGICAL, n);
    let n = first(block < sector, refusals::BLOCK_BELOW_SECTOR, n);
    let n = first(MAX_SECTORSIZE < sector, refusals::BAD_SECTOR, n);
    let n = first(pow2_log(sector) == 0, refusals::BAD_SECTOR, n);
    let n = first(
        MAX_SUPPORTED_BLOCKSIZE < block,
        refusals::BLOCK_TOO_LARGE,
        n,
    );
    let n = first(block < MIN_CRC_BLOCKSIZE, refusals::BLOCK_OF_512, n);
    first(pow2_log(block) == 0, refusals::BLOCK_NO_POWER, n)
}
