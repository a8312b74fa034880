// The sector size that a list of written records says in its first bytes: a list for smaller sectors than the device's isn't to be applied.
#![tactic(auto)]

ghost use Rattle.std.specs.Prelude.{◌≡◌, ◌+◌, ◌≤◌, length};
ghost use Rattle.endian.specs.Bytes.{be_at};
ghost use Rattle.list_sector.specs.Sector.{begins_superblock, sector_behind, sector_in, enough, below_logical};

use arith::choice::both;
use endian::{be16, be32, be64};

// As many bytes of a list as its superblock's sector size stands in.
pub fn enough() -> usize
    ensures { result ≡ enough }
{
    16578
}

// The mark WB.
const BYTES_MARK: u32 = 0x5742;

// XFSB.
const MAGIC: u32 = 0x5846_5342;

fn long_at(list: &[u8], off: usize) -> u64
    requires { off + 8 ≤ length list.now }
    ensures { result ≡ be_at 8 off list.now }
{
    let read = be64(list, off);
    read.value
}

fn word_at(list: &[u8], off: usize) -> u32
    requires { off + 4 ≤ length list.now }
    ensures { result ≡ be_at 4 off list.now }
{
    let read = be32(list, off);
    read.value
}

fn half_at(list: &[u8], off: usize) -> u32
    requires { off + 2 ≤ length list.now }
    ensures { result ≡ be_at 2 off list.now }
{
    let read = be16(list, off);
    read.value as u32
}

// Whether group 0's first block stands behind a block of n bytes.
fn is_first(list: &[u8], n: usize) -> bool
    requires { (n ≤ 16384) × (194 + n ≤ length list.now) }
    ensures { result ≡ begins_superblock n list.now }
{
    let marks = both(
        half_at(list, 54) == BYTES_MARK,
        half_at(list, 72 + n) == BYTES_MARK,
    );
    let start = both(long_at(list, 74 + n) == 0, word_at(list, 90 + n) == MAGIC);
    both(marks, start)
}

// The sector size behind a block of n bytes.
fn sector_behind(list: &[u8], n: u64) -> u32
    ensures { result ≡ sector_behind n list.now }
{
    if 16384 < n {
        return 0;
    }
    let m = n as usize;
    if list.len() < 194 + m {
        return 0;
    }
    if is_first(list, m) {
        return half_at(list, 192 + m);
    }
    0
}

fn sector_in(list: &[u8]) -> u32
    ensures { result ≡ sector_in list.now }
{
    if list.len() < 194 {
        return 0;
    }
    sector_behind(list, long_at(list, 64))
}

// Whether the list that begins with these bytes is for smaller sectors than the device's logical ones, or doesn't say for which.
pub fn below_logical(list: &[u8], logical: u64) -> bool
    ensures { result ≡ below_logical list.now logical }
{
    (sector_in(list) as u64) < logical
}
