// The geometry step: the numbers are chosen first and tested afterwards.
ghost use Rattle.std.specs.Prelude.{◌≡◌};
ghost use Rattle.geometry.specs.Compute.{label_of, chosen_of, refusal_of, geometry_of, zero_geometry, compute_def};

use crate::groups::{
    asked_blocks, groups_refusal, initial_groups, is_short, min_group, options_refusal, trimmed,
};
use crate::log_size::{imaxpct_of, last_refusal, log_blocks, log_limit, prealloc_of};
use crate::sizes::{chosen_sizes, sizes_refusal};
use crate::{Chosen, Computed, Geometry};
use arith::numbers::{quotient, quotient_u32};
use arith::powers::{log2_roundup, pow2_log};
use params::{Features, Params};
use refusals::first;

// The label's bytes, filled up with zeros.
#[tactic(auto, unfolding(crate::specs::Compute::label_of))]
fn padded(bytes: [u8; 12], length: usize) -> [u8; 12]
    ensures { result ≡ label_of length bytes }
{
    let n = length.min(Geometry::MAX_LABEL);
    let mut out = [0u8; 12];
    out[..n].copy_from_slice(&bytes[..n]);
    out
}

// All that the options and the device decide.
fn choose(params: Params, device: u64, logical: u32, physical: u32) -> Chosen
    ensures { result ≡ chosen_of params device logical physical }
{
    let sizes = chosen_sizes(params, logical, physical);
    let bs = sizes.block as u64;
    let blocks = asked_blocks(params.size, device, bs);
    let asked = initial_groups(params.agsize, params.agcount, bs, blocks);
    let groups = trimmed(asked, min_group(bs));
    let prealloc = prealloc_of(params.features, sizes.sector, bs);
    let limit = log_limit(
        params.roomy,
        params.features,
        groups.dblocks,
        groups.agsize,
        groups.agcount,
        prealloc,
    );
    Chosen {
        sizes,
        asked,
        groups,
        imaxpct: imaxpct_of(params.imaxpct, bs, groups.dblocks),
        prealloc,
        log: log_blocks(groups.dblocks, limit, bs),
    }
}

// The number of the refusal, 0 for none: the last test first, so that the smallest number is left.
fn refusal(params: Params, device: u64, c: Chosen) -> u32
    ensures { result ≡ refusal_of params device c }
{
    let f = params.features;
    let s = c.sizes;
    let g = c.groups;
    let bs = s.block as u64;
    // 19 to 24
    let n = last_refusal(
        c.imaxpct,
        params.label.length,
        bs,
        g.dblocks,
        g.agsize,
        g.agcount,
        c.log,
    );
    let n = groups_refusal(bs, g.dblocks, g.agsize, g.agcount, n); // 15 to 18
    let short = is_short(c.asked, min_group(bs));
    let blocks = quotient(device, bs);
    // 9 to 14
    let n = options_refusal(
        params.agsize,
        params.agcount,
        bs,
        blocks,
        c.asked.dblocks,
        short,
        n,
    );
    let n = sizes_refusal(s.block, s.sector, s.inode, s.logical, n); // 2 to 8
    first(f.inobtcount && !f.finobt, refusals::INOBTCOUNT_ALONE, n)
}

// The geometry of what was chosen.
fn built(params: Params, c: Chosen) -> Geometry
    ensures { result ≡ geometry_of params c }
{
    let s = c.sizes;
    let g = c.groups;
    let blocklog = pow2_log(s.block);
    let sectlog = pow2_log(s.sector);
    let inodelog = pow2_log(s.inode);
    Geometry {
        blocksize: s.block,
        blocklog,
        sectsize: s.sector,
        sectlog,
        lsectsize: s.sector,
        lsectlog: sectlog,
        inodesize: s.inode,
        inodelog,
        inopblock: quotient_u32(s.block, s.inode),
        inopblog: blocklog.saturating_sub(inodelog),
        dirblocklog: if s.block < Geometry::MIN_DIR_BLOCK {
            Geometry::MIN_DIR_LOG
        } else {
            blocklog
        },
        dblocks: g.dblocks,
        agsize: g.agsize,
        agcount: g.agcount,
        agblklog: log2_roundup(g.agsize),
        imaxpct: c.imaxpct,
        logblocks: c.log,
        logagno: g.agcount / 2,
        log_agbno: c.prealloc,
        features: params.features,
        label: padded(params.label.bytes, params.label.length),
        roomy: params.roomy,
    }
}

impl Geometry {
    // The geometry of zeros, beside every refusal.
    pub fn zero() -> Geometry
        ensures { result ≡ zero_geometry }
    {
        let features = Features {
            finobt: false,
            rmapbt: false,
            reflink: false,
            inobtcount: false,
            bigtime: false,
            nrext64: false,
            sparse: false,
        };
        Geometry {
            blocksize: 0,
            blocklog: 0,
            sectsize: 0,
            sectlog: 0,
            lsectsize: 0,
            lsectlog: 0,
            inodesize: 0,
            inodelog: 0,
            inopblock: 0,
            inopblog: 0,
            dirblocklog: 0,
            dblocks: 0,
            agsize: 0,
            agcount: 0,
            agblklog: 0,
            imaxpct: 0,
            logblocks: 0,
            logagno: 0,
            log_agbno: 0,
            features,
            label: [0u8; 12],
            roomy: false,
        }
    }

    // The geometry for these options on a device of device_size bytes with these sectors, or the number of the refusal.
    pub fn compute(
        params: Params,
        device_size: u64,
        logical_sector: u32,
        physical_sector: u32,
    ) -> Computed
        ensures { result ≡ compute_def params device_size logical_sector physical_sector }
    {
        let c = choose(params, device_size, logical_sector, physical_sector);
        let number = refusal(params, device_size, c);
        let geometry = if number == 0 {
            built(params, c)
        } else {
            Geometry::zero()
        };
        Computed { number, geometry }
    }
}
