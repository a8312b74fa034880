// What the planner reads of a geometry for one group, in plain numbers.
#![tactic(auto)]

ghost use Rattle.std.specs.Prelude.{◌≡◌, true, ◌+◌, ◌<◌, ◌^◌};
ghost use Rattle.arith.specs.Choice.{bit};
ghost use Rattle.geometry.specs.Log.{header_of, prealloc_of};
ghost use Rattle.geometry_layout.specs.Places.{group_blocks, rmap_block, refc_block, freelist_of, chunk_of, root_chunk_of};
ghost use Rattle.geometry_answers.specs.Named.{is_answer};
ghost use Rattle.geometry_counts.specs.Known.{number_in, value_in};
ghost use Rattle.plan_site.specs.Sites.{site_of, no_site, sited, Narrow};

use geometry::Geometry;
use geometry::log_size::{header_of, prealloc_of};
use geometry_counts::head::freelist_of;
use geometry_counts::inodes::{chunk_of, root_chunk_of};
use geometry_places::refusal::ag_blocks;
use params::Features;

// Blocks, and places of blocks within the group.
#[derive(Clone, Copy)]
pub struct Site {
    pub agno: u64,
    pub length: u32,
    pub head: u32, // preallocated blocks
    pub need: u32, // blocks of the free list
    pub has_log: bool,
    pub log_at: u32,
    pub log_blocks: u32,
    pub chunk_at: u32,
    pub chunk_blocks: u32,
    pub rmapbt: bool,
    pub reflink: bool,
    pub bno: u32, // root of the free-space tree by block
    pub ibt: u32, // root of the inode tree
    pub rmap_at: u32, // root of the reverse mappings
    pub refc_at: u32, // root of the reference counts
}

// The number is 0 for a group of an answer; a refusal has the site of zeros.
#[derive(Clone, Copy)]
pub struct Sited {
    pub number: u32,
    pub site: Site,
}

// A number of blocks in 32 bits.
fn narrow(n: u64) -> u32
    requires { n < 2 ^ 32 }
    ensures { result ≡ n }
{
    n as u32
}

fn refused(n: u32) -> Sited
    ensures { result ≡ record { number = n; site = no_site } }
{
    let site = Site {
        agno: 0,
        length: 0,
        head: 0,
        need: 0,
        has_log: false,
        log_at: 0,
        log_blocks: 0,
        chunk_at: 0,
        chunk_blocks: 0,
        rmapbt: false,
        reflink: false,
        bno: 0,
        ibt: 0,
        rmap_at: 0,
        refc_at: 0,
    };
    Sited { number: n, site }
}

// The site of group agno, which has `length` blocks; all its numbers fit in 32 bits.
fn site_with(g: Geometry, agno: u64, length: u64) -> Site
    requires { (Narrow g agno) × (length ≡ group_blocks g.dblocks g.agsize g.agcount agno) }
    ensures { result ≡ site_of g agno }
{
    let f = g.features;
    let bs = g.blocksize as u64;
    let header = narrow(header_of(g.sectsize, bs));
    let rmap_at = header + 3 + u32::from(f.finobt);
    Site {
        agno,
        length: narrow(length),
        head: narrow(prealloc_of(f, g.sectsize, bs)),
        need: narrow(freelist_of(f)),
        has_log: agno == g.logagno,
        log_at: narrow(g.log_agbno),
        log_blocks: narrow(g.logblocks),
        chunk_at: narrow(root_chunk_of(f, g.sectsize, g.inodesize, bs)),
        chunk_blocks: narrow(chunk_of(g.inodesize, bs)),
        rmapbt: f.rmapbt,
        reflink: f.reflink,
        bno: header,
        ibt: header + 2,
        rmap_at,
        refc_at: rmap_at + u32::from(f.rmapbt),
    }
}

// The number of a refusal, or 0.
pub fn number_of(v: Result<u64, u32>) -> u32
    ensures { result ≡ number_in v }
{
    match v {
        Err(n) => n,
        Ok(_) => 0,
    }
}

// The value, or 0.
pub fn value_of(v: Result<u64, u32>) -> u64
    ensures { result ≡ value_in v }
{
    v.unwrap_or(0)
}

// 31, 29, or the site of group agno.
pub fn site_of(g: Geometry, agno: u64) -> Sited
    ensures { result ≡ sited g agno }
{
    let blocks = ag_blocks(g, agno);
    let n = number_of(blocks);
    if n != 0 {
        return refused(n);
    }
    let site = site_with(g, agno, value_of(blocks));
    Sited { number: 0, site }
}
