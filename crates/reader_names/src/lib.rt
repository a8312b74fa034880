// What a superblock's bytes name: the fields are read at their places, and the geometry step answers for them.
#![tactic(auto)]

ghost use Rattle.std.specs.Prelude.{◌≡◌, ◌+◌, ◌≤◌, ◌<◌, length};
ghost use Rattle.endian.specs.Bytes.{be_at};
ghost use Rattle.endian.specs.Fields.{part};
ghost use Rattle.reader_names.specs.Named.{has_bit, features_at, names_at};
ghost use Rattle.reader_names.specs.Read.{named_read, uuid_read};

use endian::{be16, be32, be64};
use geometry::{Computed, Geometry};
use geometry_answers::Named;
use params::Features;

// The least that a superblock needs, in bytes.
pub const LEAST_SECTOR: usize = 512;

fn has_bit(weight: u32, n: u32) -> bool
    requires { 0 < weight }
    ensures { result ≡ has_bit weight n }
{
    n / weight % 2 == 1
}

// The known feature bits of the two words.
fn features_at(ro: u32, incompat: u32) -> Features
    ensures { result ≡ features_at ro incompat }
{
    Features {
        finobt: has_bit(1, ro),
        rmapbt: has_bit(2, ro),
        reflink: has_bit(4, ro),
        inobtcount: has_bit(8, ro),
        bigtime: has_bit(8, incompat),
        nrext64: has_bit(0x20, incompat),
        sparse: has_bit(2, incompat),
    }
}

fn long_at(head: &[u8], off: usize) -> u64
    requires { off + 8 ≤ length head.now }
    ensures { result ≡ be_at 8 off head.now }
{
    be64(head, off).value
}

fn word_at(head: &[u8], off: usize) -> u32
    requires { off + 4 ≤ length head.now }
    ensures { result ≡ be_at 4 off head.now }
{
    be32(head, off).value
}

fn half_at(head: &[u8], off: usize) -> u32
    requires { off + 2 ≤ length head.now }
    ensures { result ≡ be_at 2 off head.now }
{
    u32::from(be16(head, off).value)
}

fn byte_at(head: &[u8], off: usize) -> u8
    requires { off < length head.now }
    ensures { result ≡ be_at 1 off head.now }
{
    head[off]
}

fn bytes_at<const N: usize>(head: &[u8], off: usize) -> [u8; N]
    requires { off + N ≤ length head.now }
    ensures { result ≡ part off N head.now }
{
    let mut bytes = [0; N];
    bytes.copy_from_slice(&head[off..off + N]);
    bytes
}

// The named fields, where there is room for a superblock.
fn names_at(head: &[u8]) -> Named
    requires { 512 ≤ length head.now }
    ensures { result ≡ names_at head.now }
{
    Named {
        dblocks: long_at(head, 8),
        agsize: u64::from(word_at(head, 84)),
        blocksize: word_at(head, 4),
        sectsize: half_at(head, 102),
        inodesize: half_at(head, 104),
        imaxpct: byte_at(head, 127),
        features: features_at(word_at(head, 212), word_at(head, 216)),
        label: bytes_at(head, 108),
    }
}

// The geometry that the superblock at the start of the bytes names under a sizing of the log, or a refusal: 27 under 512 bytes.
pub fn named_by(head: &[u8], roomy: bool) -> Computed
    ensures { result ≡ named_read roomy head.now }
{
    if head.len() < LEAST_SECTOR {
        return Computed {
            number: refusals::WRONG_LENGTH,
            geometry: Geometry::zero(),
        };
    }
    names_at(head).answer(roomy)
}

// Its UUID, zeros under 512 bytes.
pub fn uuid_of(head: &[u8]) -> [u8; 16]
    ensures { result ≡ uuid_read head.now }
{
    if head.len() < LEAST_SECTOR {
        return [0; 16];
    }
    bytes_at(head, 32)
}
