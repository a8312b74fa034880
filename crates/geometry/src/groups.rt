// Block count and allocation groups, and the refusals that they meet: 9 to 18.
ghost use Rattle.std.specs.Prelude.{◌≡◌, ◌/◌, ◌^◌, is_some};
ghost use Rattle.refusals.specs.Table.{first};
ghost use Rattle.params.specs.Options.{zero64, partial64};
ghost use Rattle.geometry.specs.Limits.{min_group_bytes, min_group, max_group};
ghost use Rattle.geometry.specs.Groups.{asked_blocks, default_size, groups_of, initial_groups, is_short, trim, options_refusals, groups_refusals};

use crate::Geometry;
use arith::numbers::{div_ceil, quotient, remainder, round_down};
use refusals::first;

// Block count, blocks of a group and the number of groups.
#[derive(Clone, Copy)]
pub struct Groups {
    pub dblocks: u64,
    pub agsize: u64,
    pub agcount: u64,
}

// The least group, in blocks of 2^blocklog bytes.
pub fn ag_min_blocks(blocklog: u8) -> u64
    ensures { result ≡ min_group_bytes / 2 ^ blocklog }
{
    if blocklog < 64 {
        Geometry::AG_MIN_BYTES >> blocklog
    } else {
        0
    }
}

// The least group, in blocks of bs bytes.
pub fn min_group(bs: u64) -> u64
    ensures { result ≡ min_group bs }
{
    quotient(Geometry::AG_MIN_BYTES, bs)
}

// The largest group, in blocks of bs bytes.
fn ag_max_blocks(bs: u64) -> u64
    ensures { result ≡ max_group bs }
{
    quotient(Geometry::AG_MAX_BYTES - 1, bs)
}

// The blocks that are asked for.
pub fn asked_blocks(size: Option<u64>, device: u64, bs: u64) -> u64
    ensures { result ≡ asked_blocks size device bs }
{
    match size {
        Some(bytes) => quotient(bytes, bs),
        None => quotient(device, bs),
    }
}

// Blocks of a group where neither option is given.
fn default_size(bs: u64, d: u64) -> u64
    ensures { result ≡ default_size bs d }
{
    let most = ag_max_blocks(bs);
    if quotient(Geometry::LARGE_BYTES, bs) <= d {
        return most;
    }
    let groups = if quotient(Geometry::FOUR_GROUP_BYTES, bs) <= d {
        4
    } else if quotient(Geometry::TWO_GROUP_BYTES, bs) <= d {
        2
    } else {
        1
    };
    most.min(div_ceil(d, groups))
}

// Groups of s blocks over d blocks.
fn groups_of(d: u64, s: u64) -> Groups
    ensures { result ≡ groups_of d s }
{
    Groups {
        dblocks: d,
        agsize: s,
        agcount: div_ceil(d, s),
    }
}

// The groups before a short last one is dropped.
pub fn initial_groups(agsize: Option<u64>, agcount: Option<u64>, bs: u64, d: u64) -> Groups
    ensures { result ≡ initial_groups agsize agcount bs d }
{
    match (agsize, agcount) {
        (Some(a), _) => groups_of(d, quotient(a, bs)),
        (None, Some(n)) => Groups {
            dblocks: d,
            agsize: div_ceil(d, n),
            agcount: n,
        },
        (None, None) => groups_of(d, default_size(bs, d)),
    }
}

// The last group is partial and under the least size.
pub fn is_short(g: Groups, least: u64) -> bool
    ensures { result ≡ is_short g least }
{
    let last = remainder(g.dblocks, g.agsize);
    last != 0 && last < least
}

// The groups without a short last one.
pub fn trimmed(g: Groups, least: u64) -> Groups
    ensures { result ≡ trim g least }
{
    if is_short(g, least) {
        return Groups {
            dblocks: round_down(g.dblocks, g.agsize),
            agcount: quotient(g.dblocks, g.agsize),
            ..g
        };
    }
    g
}

// Whether the option is given as 0.
fn is_zero(option: Option<u64>) -> bool
    ensures { result ≡ zero64 option }
{
    option == Some(0)
}

// Whether the option is given, and no multiple of m.
fn is_partial(option: Option<u64>, m: u64) -> bool
    ensures { result ≡ partial64 option m }
{
    match option {
        Some(n) => remainder(n, m) != 0,
        None => false,
    }
}

// Refusals 9 to 14, the last test first: d blocks are asked for, and the device has `device`.
pub fn options_refusal(
    agsize: Option<u64>,
    agcount: Option<u64>,
    bs: u64,
    device: u64,
    d: u64,
    short: bool,
    rest: u32,
) -> u32
    ensures { result ≡ first (options_refusals agsize agcount bs device d short) rest }
{
    let n = first(agcount.is_some() && short, refusals::LAST_GROUP_SHORT, rest);
    let n = first(
        agsize.is_none() && is_zero(agcount),
        refusals::AGCOUNT_ZERO,
        n,
    );
    let n = first(is_zero(agsize), refusals::AGSIZE_ZERO, n);
    let n = first(is_partial(agsize, bs), refusals::AGSIZE_NO_MULTIPLE, n);
    let n = first(d < min_group(bs), refusals::TOO_FEW_BLOCKS, n);
    first(device < d, refusals::SIZE_ABOVE_DEVICE, n)
}

// Refusals 15 to 18, the last test first, of the groups without a short last one.
pub fn groups_refusal(bs: u64, dblocks: u64, agsize: u64, agcount: u64, rest: u32) -> u32
    ensures { result ≡ first (groups_refusals bs dblocks agsize agcount) rest }
{
    let n = first(
        Geometry::MAX_AGNUMBER < agcount,
        refusals::TOO_MANY_GROUPS,
        rest,
    );
    let n = first(dblocks < agsize, refusals::GROUP_ABOVE_DISK, n);
    let n = first(ag_max_blocks(bs) < agsize, refusals::GROUP_TOO_LARGE, n);
    first(agsize < min_group(bs), refusals::GROUP_TOO_SMALL, n)
}
