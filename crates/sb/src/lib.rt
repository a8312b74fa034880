// The superblock, `struct xfs_dsb`. The Rust's structs/sb.rs.
#![tactic(auto)]

ghost use Rattle.std.specs.Prelude.{◌≡◌, ◌||◌, [], ◌∷◌, ◌+◌, ◌*◌, ◌^◌, ◌≤◌, ◌<◌, ltb, length};
ghost use Rattle.arith.specs.Choice.{bit};
ghost use Rattle.geometry_layout.specs.Places.{fsb_of};
ghost use Rattle.structs.specs.Encoded.{Encoded};
ghost use Rattle.geometry_answers.specs.Named.{is_answer};
ghost use Rattle.geometry_counts.specs.Known.{known};
ghost use Rattle.sb.specs.Superblock.{features2_bits, fixed_version, large_sector, version_of, ro_compat, in_compat, logstart_of, log_sector, crc_at, sb_number, sb_bytes};
ghost use Rattle.sb.specs.Numbers.{numbers};

use crate::put::{put_log_sector, put_names, put_numbers};
use arith::choice::bit_of;
use crc::Stamped;
use geometry::Geometry;
use geometry_answers::is_answer;
use geometry_counts::inodes::{align_of, spino_of};
use geometry_counts::known;
use geometry_counts::stripes::{logsunit_of, lsunit_of, rext_of};
use params::Features;

pub mod put; // the parts at their places

// XFS_SB_MAGIC, "XFSB".
pub const MAGIC: u64 = 0x5846_5342;

// The offset of sb_crc.
pub const CRC: usize = 224;

// Version 5 with NLINKBIT, ALIGNBIT, LOGV2BIT, EXTFLGBIT, DIRV2BIT and MOREBITSBIT.
const VERSION: u64 = 0xb4a5;

// LAZYSBCOUNTBIT, ATTR2BIT, PROJID32BIT and CRCBIT.
pub const FEATURES2: u64 = 0x18a;

// What differs between the primary superblock and the secondaries, and between the start and the end of a run.
#[derive(Clone, Copy)]
pub struct SbState {
    pub uuid: [u8; 16],
    pub rootino: u64, // or NULL64, as the next two
    pub rbmino: u64,
    pub rsumino: u64,
    pub icount: u64,
    pub ifree: u64,
    pub fdblocks: u64,
    pub inprogress: bool, // the run has not finished
}

// Whether a sector is above 512 bytes.
fn large_sector(sector: u32, lsector: u32) -> bool
    ensures { result ≡ (ltb 512 sector || ltb 512 lsector) }
{
    512 < sector || 512 < lsector
}

// A flag's weight where it is set.
#[tactic(auto, unfolding(arith::specs::Choice::bit))]
fn flag(b: bool, weight: u64) -> u64
    ensures { (result ≡ weight * bit b) × (result ≤ weight) }
{
    if b { weight } else { 0 }
}

// sb_versionnum.
fn version_of(large: bool) -> u64
    ensures { result ≡ fixed_version + 0x800 * bit large }
{
    VERSION + flag(large, 0x800)
}

// sb_features_ro_compat.
fn ro_of(f: Features) -> u64
    ensures { result ≡ ro_compat f }
{
    flag(f.finobt, 1) + flag(f.rmapbt, 2) + flag(f.reflink, 4) + flag(f.inobtcount, 8)
}

// sb_features_incompat.
fn in_of(f: Features) -> u64
    ensures { result ≡ in_compat f }
{
    1 + flag(f.sparse, 2) + flag(f.bigtime, 8) + flag(f.nrext64, 0x20)
}

// sb_logstart: the log's first block as a file system block.
fn log_start(log: u8, k: u64, b: u64) -> u64
    requires { (log < 64) × (k * 2 ^ log + b < 2 ^ 64) }
    ensures { result ≡ fsb_of log k b }
{
    (k << log) + b
}

// Every number of the superblock, with the log's start handed in.
fn all_numbers(g: Geometry, s: SbState, start: u64) -> [u64; 46]
    requires { start ≡ logstart_of g }
    ensures { result ≡ numbers g s }
{
    let f = g.features;
    let bs = u64::from(g.blocksize);
    let version = version_of(large_sector(g.sectsize, g.lsectsize));
    let rext = u64::from(rext_of(g.blocksize));
    let align = align_of(f.sparse, g.inodesize, bs);
    let dirlog = u64::from(g.dirblocklog.saturating_sub(g.blocklog));
    let sunit = u64::from(logsunit_of(lsunit_of(g.lsectsize, g.blocksize)));
    let ro = ro_of(f);
    let incompat = in_of(f);
    let spino = spino_of(f.sparse, g.inodesize, bs);
    let progress = bit_of(s.inprogress);
    [
        MAGIC, // sb_magicnum
        u64::from(g.blocksize), // sb_blocksize
        g.dblocks, // sb_dblocks
        0, // sb_rblocks
        0, // sb_rextents
        start, // sb_logstart
        s.rootino, // sb_rootino
        s.rbmino, // sb_rbmino
        s.rsumino, // sb_rsumino
        rext, // sb_rextsize
        g.agsize, // sb_agblocks
        g.agcount, // sb_agcount
        0, // sb_rbmblocks
        g.logblocks, // sb_logblocks
        version, // sb_versionnum
        u64::from(g.sectsize), // sb_sectsize
        u64::from(g.inodesize), // sb_inodesize
        u64::from(g.inopblock), // sb_inopblock
        u64::from(g.blocklog), // sb_blocklog
        u64::from(g.sectlog), // sb_sectlog
        u64::from(g.inodelog), // sb_inodelog
        u64::from(g.inopblog), // sb_inopblog
        u64::from(g.agblklog), // sb_agblklog
        0, // sb_rextslog
        progress, // sb_inprogress
        u64::from(g.imaxpct), // sb_imax_pct
        s.icount, // sb_icount
        s.ifree, // sb_ifree
        s.fdblocks, // sb_fdblocks
        0, // sb_frextents
        0, // sb_uquotino
        0, // sb_gquotino
        align, // sb_inoalignmt
        0, // sb_unit
        0, // sb_width
        dirlog, // sb_dirblklog
        sunit, // sb_logsunit
        FEATURES2, // sb_features2
        FEATURES2, // sb_bad_features2
        0, // sb_features_compat
        ro, // sb_features_ro_compat
        incompat, // sb_features_incompat
        0, // sb_features_log_incompat
        spino, // sb_spino_align
        0, // sb_pquotino
        0, // sb_lsn
    ]
}

// The superblock in a sector that is long enough.
fn fill(g: Geometry, s: SbState, sector: &mut [u8]) -> Stamped
    requires { (264 ≤ length sector.old) × ((g.agblklog < 64) × (g.logagno * 2 ^ g.agblklog + g.log_agbno < 2 ^ 64))
        × (g.lsectsize < 2 ^ 16) }
    ensures { Encoded 0 (crc_at ∷ []) (sb_bytes g s sector.old) sector.old result.number result.right
        sector.new }
{
    let start = log_start(g.agblklog, g.logagno, g.log_agbno);
    let v = all_numbers(g, s, start);
    let uuid = s.uuid;
    let label = g.label;
    let large = large_sector(g.sectsize, g.lsectsize);
    put_numbers(sector, &v);
    put_names(sector, &uuid, &label);
    put_log_sector(sector, large, g.lsectlog, g.lsectsize as u16);
    crc::stamp(sector, CRC)
}

// One superblock: its named bytes and its checksum, and whether that stood there already; every other byte of the sector stays. 31 for a
// geometry that is no answer of the geometry step, 27 unless the sector has its length.
pub fn encode(g: Geometry, s: SbState, sector: &mut [u8]) -> Stamped
    ensures { Encoded (sb_number g (length sector.old)) (crc_at ∷ []) (sb_bytes g s sector.old)
        sector.old result.number result.right sector.new }
{
    if is_answer(g) {
        if sector.len() == (g.sectsize as usize) {
            return fill(g, s, sector);
        }
        return Stamped {
            number: refusals::WRONG_LENGTH,
            right: false,
        };
    }
    Stamped {
        number: refusals::NO_ANSWER,
        right: false,
    }
}

// sb_versionnum of a geometry; 31 for one that is no answer of the geometry step, here and in the next three.
pub fn versionnum(g: Geometry) -> Result<u64, u32>
    ensures { result ≡ known (is_answer g) (version_of g) }
{
    let version = version_of(large_sector(g.sectsize, g.lsectsize));
    known(g, version)
}

// sb_features2, and sb_bad_features2.
pub fn features2(g: Geometry) -> Result<u64, u32>
    ensures { result ≡ known (is_answer g) features2_bits }
{
    known(g, FEATURES2)
}

// sb_features_ro_compat.
pub fn ro_compat(g: Geometry) -> Result<u64, u32>
    ensures { result ≡ known (is_answer g) (ro_compat g.features) }
{
    let f = g.features;
    known(g, ro_of(f))
}

// sb_features_incompat.
pub fn incompat(g: Geometry) -> Result<u64, u32>
    ensures { result ≡ known (is_answer g) (in_compat g.features) }
{
    let f = g.features;
    known(g, in_of(f))
}
