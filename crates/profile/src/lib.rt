// The scan station profile: whether it allows a geometry with a label, and the label of a disk as it judges it.
#![tactic(auto)]

ghost use Rattle.std.specs.Prelude.{◌≡◌, ◌≤◌, length, take};
ghost use Rattle.profile.specs.Rules.{allowed_sector, all_on, allowed_groups, label_byte, label_bytes, allowed_label, in_profile};
ghost use Rattle.profile.specs.Rules.{profile_number, trimmed, label_on};

use geometry::Geometry;
use params::{Features, Label};
use refusals::NOT_IN_PROFILE;

// What is allowed, in bytes and in groups.
const BLOCK: u32 = 4096;

const SMALL_SECTOR: u32 = 512;

const LARGE_SECTOR: u32 = 4096;

const INODE: u32 = 512;

const FEWEST_GROUPS: u64 = 2;

const MOST_GROUPS: u64 = 64;

// Bytes of a label's field.
const LABEL_ROOM: usize = 12;

#[tactic(auto, unfolding(crate::specs::Rules::allowed_sector))]
fn is_sector(bytes: u32) -> bool
    ensures { result ≡ allowed_sector bytes }
{
    bytes == SMALL_SECTOR || bytes == LARGE_SECTOR
}

// Whether all seven features are on.
#[tactic(auto, unfolding(crate::specs::Rules::all_on))]
fn all_on(f: Features) -> bool
    ensures { result ≡ all_on f }
{
    f.finobt && f.rmapbt && f.reflink && f.inobtcount && f.bigtime && f.nrext64 && f.sparse
}

#[tactic(auto, unfolding(crate::specs::Rules::allowed_groups))]
fn is_few(groups: u64) -> bool
    ensures { result ≡ allowed_groups groups }
{
    (FEWEST_GROUPS..=MOST_GROUPS).contains(&groups)
}

// A capital letter, a digit or a hyphen.
#[tactic(auto, unfolding(crate::specs::Rules::label_byte))]
fn is_label_byte(b: u8) -> bool
    ensures { result ≡ label_byte b }
{
    matches!(b, b'A'..=b'Z' | b'0'..=b'9' | b'-')
}

// Whether the first `n` bytes are all allowed.
fn all_allowed(bytes: [u8; 12], n: usize) -> bool
    requires { n ≤ 12 }
    ensures { result ≡ label_bytes (take n bytes) }
{
    bytes[..n].iter().all(|b| is_label_byte(*b))
}

#[tactic(auto, unfolding(crate::specs::Rules::allowed_label))]
fn is_label(label: Label) -> bool
    ensures { result ≡ allowed_label label }
{
    (1..=LABEL_ROOM).contains(&label.length) && all_allowed(label.bytes, label.length)
}

// Whether the profile allows the geometry with the label.
#[tactic(auto, unfolding(crate::specs::Rules::in_profile))]
pub fn in_profile(g: Geometry, label: Label) -> bool
    ensures { result ≡ in_profile g label }
{
    g.blocksize == BLOCK
        && is_sector(g.sectsize)
        && g.inodesize == INODE
        && all_on(g.features)
        && is_few(g.agcount)
        && is_label(label)
}

// 37 under the profile where a rule fails, else 0.
#[tactic(auto, unfolding(arith::specs::Choice::when))]
pub fn profile_number(under: bool, g: Geometry, label: Label) -> u32
    ensures { result ≡ profile_number under g label }
{
    if under && !in_profile(g, label) {
        NOT_IN_PROFILE
    } else {
        0
    }
}

// How many bytes stand before the zeros at the end.
fn end_of(bytes: [u8; 12]) -> usize
    ensures { result ≡ length (trimmed bytes) }
{
    match bytes.iter().rposition(|b| *b != 0) {
        Some(last) => last + 1,
        None => 0,
    }
}

// The label that a disk has: its field without the zeros at its end.
#[tactic(auto, unfolding(crate::specs::Rules::label_on))]
pub fn label_on(g: Geometry) -> Label
    ensures { result ≡ label_on g }
{
    let bytes = g.label;
    Label {
        length: end_of(bytes),
        bytes,
    }
}
