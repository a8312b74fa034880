// One size in plain numbers: what the size has no part in is worked out once, and then each block count in a few steps.
ghost use Rattle.std.specs.Prelude.{◌≡◌, ◌/◌};
ghost use Rattle.refusals.specs.Table.{first};
ghost use Rattle.geometry.specs.Groups.{groups_of, group_blocks};
ghost use Rattle.run.specs.Runs.{or_next};
ghost use Rattle.inquire_sizes.specs.Step.{in_blocks, limits_of, early_number, late_number, fixed_of, default_group_size, groups_with, log_at, at_of, group_refusals, disk_refusals, number_at};

use arith::numbers::{div_ceil, quotient};
use geometry::Geometry;
use geometry::groups::{Groups, is_short, min_group, options_refusal, trimmed};
use geometry::log_size::{freelist_of, imaxpct_of, log_limit, prealloc_of};
use geometry::sizes::chosen_sizes;
use params::{Features, Params};
use refusals::first;

// Limits in blocks.
#[derive(Clone, Copy)]
pub struct Limits {
    pub least: u64, // of a group
    pub most: u64, // of a group
    pub large: u64, // from here on groups have the largest size
    pub four: u64, // from here on there are four groups
    pub two: u64, // from here on there are two
    pub least_disk: u64,
    pub least_log: u64,
    pub most_log: u64, // by its bytes
}

// What the device's size has no part in; sizes in blocks.
#[derive(Clone, Copy)]
pub struct Fixed {
    pub size: Option<u64>,
    pub agsize: Option<u64>,
    pub agcount: Option<u64>,
    pub features: Features,
    pub roomy: bool,
    pub head: u64, // of each group
    pub limits: Limits,
    pub early: u32, // 11 to 13, or 0
    pub late: u32, // 19, 20, or 0
}

// What a size decides: the groups before and after a short last one is dropped, and the log.
#[derive(Clone, Copy)]
pub struct At {
    pub asked: Groups,
    pub groups: Groups,
    pub log: u64,
}

// An option of bytes in blocks.
fn in_blocks(option: Option<u64>, bs: u64) -> Option<u64>
    ensures { result ≡ in_blocks option bs }
{
    option.map(|bytes| quotient(bytes, bs))
}

// The limits in blocks of bs bytes.
fn limits_of(bs: u64) -> Limits
    ensures { result ≡ limits_of bs }
{
    Limits {
        least: min_group(bs),
        most: quotient(Geometry::AG_MAX_BYTES - 1, bs),
        large: quotient(Geometry::LARGE_BYTES, bs),
        four: quotient(Geometry::FOUR_GROUP_BYTES, bs),
        two: quotient(Geometry::TWO_GROUP_BYTES, bs),
        least_disk: quotient(Geometry::MIN_SUPPORTED_BYTES, bs),
        least_log: quotient(Geometry::REALISTIC_LOG_BYTES, bs),
        most_log: quotient(Geometry::MAX_LOG_BYTES, bs),
    }
}

// 11 to 13, or 0: those of a disk that has blocks enough.
fn early_number(agsize: Option<u64>, agcount: Option<u64>, bs: u64) -> u32
    ensures { result ≡ early_number agsize agcount bs }
{
    let least = min_group(bs);
    options_refusal(agsize, agcount, bs, least, least, false, 0)
}

// 19, 20, or 0: an absent imaxpct is at most 25 on any disk.
fn late_number(imaxpct: Option<u8>, label: usize, bs: u64) -> u32
    ensures { result ≡ late_number imaxpct label bs }
{
    let percent = imaxpct_of(imaxpct, bs, 0);
    let n = first(Geometry::MAX_LABEL < label, refusals::LABEL_TOO_LONG, 0);
    first(
        Geometry::MAX_IMAXPCT < percent,
        refusals::IMAXPCT_ABOVE_100,
        n,
    )
}

// What the size has no part in, for these options on a device with these sectors.
pub(crate) fn fixed_of(p: Params, logical: u32, physical: u32) -> Fixed
    ensures { result ≡ fixed_of p logical physical }
{
    let s = chosen_sizes(p, logical, physical);
    let bs = s.block as u64;
    Fixed {
        size: in_blocks(p.size, bs),
        agsize: in_blocks(p.agsize, bs),
        agcount: p.agcount,
        features: p.features,
        roomy: p.roomy,
        head: prealloc_of(p.features, s.sector, bs),
        limits: limits_of(bs),
        early: early_number(p.agsize, p.agcount, bs),
        late: late_number(p.imaxpct, p.label.length, bs),
    }
}

// Blocks of a group where neither option is given.
fn size_at(l: Limits, d: u64) -> u64
    ensures { result ≡ default_group_size l d }
{
    if l.large <= d {
        return l.most;
    }
    let groups = if l.four <= d {
        4
    } else if l.two <= d {
        2
    } else {
        1
    };
    l.most.min(div_ceil(d, groups))
}

// Groups of s blocks over d blocks.
fn over(d: u64, s: u64) -> Groups
    ensures { result ≡ groups_of d s }
{
    Groups {
        dblocks: d,
        agsize: s,
        agcount: div_ceil(d, s),
    }
}

// The groups before a short last one is dropped.
fn groups_with(l: Limits, d: u64, agsize: Option<u64>, agcount: Option<u64>) -> Groups
    ensures { result ≡ groups_with l d agsize agcount }
{
    match (agsize, agcount) {
        (Some(s), _) => over(d, s),
        (None, Some(n)) => Groups {
            dblocks: d,
            agsize: div_ceil(d, n),
            agcount: n,
        },
        (None, None) => over(d, size_at(l, d)),
    }
}

// The log of these groups.
fn log_at(f: Fixed, g: Groups) -> u64
    ensures { result ≡ log_at f g }
{
    let l = f.limits;
    let limit = log_limit(f.roomy, f.features, g.dblocks, g.agsize, g.agcount, f.head);
    let wanted = (g.dblocks / Geometry::LOG_RATIO).max(l.least_log);
    wanted
        .min(limit)
        .min(Geometry::MAX_LOG_BLOCKS)
        .min(l.most_log)
}

// What a device of n blocks decides.
fn at_of(f: Fixed, n: u64) -> At
    ensures { result ≡ at_of f n }
{
    let l = f.limits;
    let asked = groups_with(l, f.size.unwrap_or(n), f.agsize, f.agcount);
    let groups = trimmed(asked, l.least);
    let log = log_at(f, groups);
    At { asked, groups, log }
}

// Blocks of the log group: only of one group or two it is the last.
fn log_group(g: Groups) -> u64
    ensures { result ≡ group_blocks g.dblocks g.agsize g.agcount (g.agcount / 2) }
{
    match g.agcount {
        0 | 1 => g.dblocks,
        2 => g.dblocks.saturating_sub(g.agsize),
        _ => g.agsize,
    }
}

// 21 to 25, the last test first.
fn disk_refusal(f: Fixed, g: Groups, log: u64) -> u32
    ensures { result ≡ first (disk_refusals f g log) 0 }
{
    let l = f.limits;
    let behind = log_group(g).saturating_sub(f.head).saturating_sub(log);
    let n = first(
        behind < freelist_of(f.features),
        refusals::FREE_LIST_SHORT,
        0,
    );
    let n = first(
        g.agcount != div_ceil(g.dblocks, g.agsize),
        refusals::AGCOUNT_UNLIKE,
        n,
    );
    let n = first(
        g.agcount < Geometry::MIN_AGCOUNT,
        refusals::TOO_FEW_GROUPS,
        n,
    );
    let n = first(log < l.least_log, refusals::LOG_TOO_SMALL, n);
    first(g.dblocks < l.least_disk, refusals::DISK_TOO_SMALL, n)
}

// 14 to 18, the last test first.
fn group_refusal(f: Fixed, c: At, rest: u32) -> u32
    ensures { result ≡ first (group_refusals f c) rest }
{
    let l = f.limits;
    let a = c.asked;
    let g = c.groups;
    let short = is_short(a, l.least);
    let n = first(
        Geometry::MAX_AGNUMBER < g.agcount,
        refusals::TOO_MANY_GROUPS,
        rest,
    );
    let n = first(g.dblocks < g.agsize, refusals::GROUP_ABOVE_DISK, n);
    let n = first(l.most < g.agsize, refusals::GROUP_TOO_LARGE, n);
    let n = first(g.agsize < l.least, refusals::GROUP_TOO_SMALL, n);
    first(f.agcount.is_some() && short, refusals::LAST_GROUP_SHORT, n)
}

// The first of two numbers that isn't 0.
pub(crate) fn or_next(a: u32, b: u32) -> u32
    ensures { result ≡ or_next a b }
{
    if a == 0 { b } else { a }
}

// The number of a device of n blocks: 9 to 25, or 0.
pub(crate) fn number_at(f: Fixed, n: u64) -> u32
    ensures { result ≡ number_at f n }
{
    let l = f.limits;
    let c = at_of(f, n);
    let a = c.asked;
    let g = c.groups;
    let m = or_next(f.late, disk_refusal(f, g, c.log));
    let m = or_next(f.early, group_refusal(f, c, m));
    let m = first(a.dblocks < l.least, refusals::TOO_FEW_BLOCKS, m);
    first(n < a.dblocks, refusals::SIZE_ABOVE_DEVICE, m)
}
