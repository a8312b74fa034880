// Head blocks, log and imaxpct, and the refusals that they meet: 19 to 24.
ghost use Rattle.std.specs.Prelude.{◌≡◌, ◌/◌};
ghost use Rattle.refusals.specs.Table.{first};
ghost use Rattle.geometry.specs.Groups.{group_blocks};
ghost use Rattle.geometry.specs.Log.{header_of, prealloc_of, freelist_of, log_limit, log_blocks, default_imaxpct, imaxpct_of, last_refusals};

use crate::Geometry;
use arith::numbers::{div_ceil, quotient};
use params::Features;
use refusals::first;

// The blocks of the four header sectors.
pub fn header_of(sector: u32, bs: u64) -> u64
    ensures { result ≡ header_of sector bs }
{
    div_ceil(4 * (sector as u64), bs)
}

// The head of a group: header blocks, three roots, and one more for each of finobt, rmapbt, reflink.
pub fn prealloc_of(f: Features, sector: u32, bs: u64) -> u64
    ensures { result ≡ prealloc_of f sector bs }
{
    let header = header_of(sector, bs);
    header + 3 + u64::from(f.finobt) + u64::from(f.rmapbt) + u64::from(f.reflink)
}

// Blocks of the free list with these features.
pub fn freelist_of(f: Features) -> u64
    ensures { result ≡ freelist_of f }
{
    if f.rmapbt {
        Geometry::RMAP_FREELIST
    } else {
        Geometry::PLAIN_FREELIST
    }
}

// Blocks of the log group: only of one group or two it is the last.
fn log_group_blocks(dblocks: u64, agsize: u64, agcount: u64) -> u64
    ensures { result ≡ group_blocks dblocks agsize agcount (agcount / 2) }
{
    match agcount {
        0 | 1 => dblocks,
        2 => dblocks.saturating_sub(agsize),
        _ => agsize,
    }
}

// The log's upper limit, by its sizing.
pub fn log_limit(
    roomy: bool,
    f: Features,
    dblocks: u64,
    agsize: u64,
    agcount: u64,
    prealloc: u64,
) -> u64
    ensures { result ≡ log_limit roomy f dblocks agsize agcount prealloc }
{
    let reserve = Geometry::ALLOCBT_AGFL_RESERVE + 1;
    if !roomy {
        return agsize.saturating_sub(prealloc).saturating_sub(reserve);
    }
    let own = log_group_blocks(dblocks, agsize, agcount);
    let left = reserve.max(freelist_of(f));
    own.saturating_sub(prealloc).saturating_sub(left)
}

// The blocks of the log.
pub fn log_blocks(dblocks: u64, limit: u64, bs: u64) -> u64
    ensures { result ≡ log_blocks dblocks limit bs }
{
    let least = quotient(Geometry::REALISTIC_LOG_BYTES, bs);
    let most = quotient(Geometry::MAX_LOG_BYTES, bs);
    let wanted = (dblocks / Geometry::LOG_RATIO).max(least);
    wanted.min(limit).min(Geometry::MAX_LOG_BLOCKS).min(most)
}

// imaxpct where none is given.
fn default_imaxpct(bs: u64, d: u64) -> u8
    ensures { result ≡ default_imaxpct bs d }
{
    if d < quotient(Geometry::TIB, bs) {
        25
    } else if d < quotient(50 * Geometry::TIB, bs) {
        5
    } else {
        1
    }
}

// The percentage of blocks that inodes may take.
pub fn imaxpct_of(option: Option<u8>, bs: u64, d: u64) -> u8
    ensures { result ≡ imaxpct_of option bs d }
{
    match option {
        Some(n) => n,
        None => default_imaxpct(bs, d),
    }
}

// Refusals 19 to 24, the last test first; `label` is the label's length.
pub fn last_refusal(
    imaxpct: u8,
    label: usize,
    bs: u64,
    dblocks: u64,
    agsize: u64,
    agcount: u64,
    log: u64,
) -> u32
    ensures { result ≡ first (last_refusals imaxpct label bs dblocks agsize agcount log) 0 }
{
    let n = first(
        agcount != div_ceil(dblocks, agsize),
        refusals::AGCOUNT_UNLIKE,
        0,
    );
    let n = first(agcount < Geometry::MIN_AGCOUNT, refusals::TOO_FEW_GROUPS, n);
    let n = first(
        log < quotient(Geometry::REALISTIC_LOG_BYTES, bs),
        refusals::LOG_TOO_SMALL,
        n,
    );
    let n = first(
        dblocks < quotient(Geometry::MIN_SUPPORTED_BYTES, bs),
        refusals::DISK_TOO_SMALL,
        n,
    );
    let n = first(Geometry::MAX_LABEL < label, refusals::LABEL_TOO_LONG, n);
    first(
        Geometry::MAX_IMAXPCT < imaxpct,
        refusals::IMAXPCT_ABOVE_100,
        n,
    )
}
