// What a superblock names, and whether a geometry is an answer of the geometry step.
#![tactic(auto)]

ghost use Rattle.std.specs.Prelude.{◌≡◌, ◌*◌, ◌<◌, ◌^◌};
ghost use Rattle.geometry_answers.specs.Named.{named_options, named_answer, names_of, is_answer};

use crate::same::same_geometry;
use arith::choice::both;
use arith::numbers::product_fits;
use geometry::{Computed, Geometry};
use params::{Features, Label, Params};

pub mod same; // same.rt: two geometries compared

// The fields of a superblock that name its geometry: block count and group size in blocks, the other sizes in bytes.
#[derive(Clone, Copy)]
pub struct Named {
    pub dblocks: u64,
    pub agsize: u64,
    pub blocksize: u32,
    pub sectsize: u32,
    pub inodesize: u32,
    pub imaxpct: u8,
    pub features: Features,
    pub label: [u8; 12],
}

impl Named {
    // The options that are named, under a sizing; the group's bytes fit.
    fn options(self, roomy: bool) -> Params
        requires { self.agsize * self.blocksize < 2 ^ 64 }
        ensures { result ≡ named_options roomy self }
    {
        let features = self.features;
        let bytes = self.label;
        let bs = self.blocksize as u64;
        let label = Label {
            length: Geometry::MAX_LABEL,
            bytes,
        };
        Params {
            size: None,
            block_size: Some(self.blocksize),
            sector_size: Some(self.sectsize),
            inode_size: Some(self.inodesize),
            agcount: None,
            agsize: Some(self.agsize * bs),
            imaxpct: Some(self.imaxpct),
            label,
            uuid: None,
            time: None,
            gen_seed: None,
            features,
            roomy,
        }
    }

    // The geometry that is named under a sizing, or the number of its refusal; 30 where the bytes of all blocks or of a group pass 64 bits.
    pub fn answer(self, roomy: bool) -> Computed
        ensures { result ≡ named_answer roomy self }
    {
        let bs = self.blocksize as u64;
        let blocks_fit = product_fits(self.dblocks, bs);
        let group_fits = product_fits(self.agsize, bs);
        if !both(blocks_fit, group_fits) {
            let geometry = Geometry::zero();
            return Computed {
                number: refusals::NOT_LEFT,
                geometry,
            };
        }
        let sector = geometry::sizes::MIN_SECTORSIZE;
        Geometry::compute(self.options(roomy), self.dblocks * bs, sector, sector)
    }
}

// What the geometry's superblock names.
pub fn names_of(g: Geometry) -> Named
    ensures { result ≡ names_of g }
{
    let features = g.features;
    let label = g.label;
    Named {
        dblocks: g.dblocks,
        agsize: g.agsize,
        blocksize: g.blocksize,
        sectsize: g.sectsize,
        inodesize: g.inodesize,
        imaxpct: g.imaxpct,
        features,
        label,
    }
}

// The geometry is an answer of the geometry step: it comes again from what it names.
pub fn is_answer(g: Geometry) -> bool
    ensures { result ≡ is_answer g }
{
    let answer = names_of(g).answer(g.roomy);
    answer.number == 0 && same_geometry(answer.geometry, g)
}
