// Parameters of a case, each by its place.
ghost use Rattle.std.specs.Prelude.{◌≤◌};

use geometry::Geometry;
use params::{Features, Timestamp};
use replay_frames::{behind, long, records, word};

// What a function answers beside the lent bytes.
#[derive(Clone, Copy)]
pub(crate) struct Answer {
    pub(crate) number: u32,
    pub(crate) value: u64,
}

// A number alone.
impl From<u32> for Answer {
    fn from(number: u32) -> Answer {
        Answer { number, value: 0 }
    }
}

pub(crate) fn half(p: &[u8], at: usize) -> u16 {
    let r = endian::be16(p, at);
    r.value
}

pub(crate) fn byte(p: &[u8], at: usize) -> u8 {
    match p.get(at) {
        Some(byte) => *byte,
        None => 0,
    }
}

// The bytes from `at` on in an array, with zeros behind them.
pub(crate) fn bytes_at<const N: usize>(p: &[u8], at: usize) -> [u8; N] {
    records(behind(p, at), 1, |bytes| byte(bytes, 0))
}

// Seconds (8 bytes) and nanoseconds (4).
pub(crate) fn time_at(p: &[u8], at: usize) -> Timestamp
    requires { at ≤ 1024 }
{
    let secs = long(p, at).cast_signed();
    let nsecs = word(p, at + 8);
    Timestamp { secs, nsecs }
}

fn features_of(p: &[u8]) -> Features {
    Features {
        finobt: byte(p, 159) == 1,
        rmapbt: byte(p, 167) == 1,
        reflink: byte(p, 175) == 1,
        inobtcount: byte(p, 183) == 1,
        bigtime: byte(p, 191) == 1,
        nrext64: byte(p, 199) == 1,
        sparse: byte(p, 207) == 1,
    }
}

// The geometry in the first 220 bytes: its 19 numbers and its seven features in 8 bytes each, and its label. Plain sizing, since the Rust
// has no other.
pub(crate) fn geometry_of(p: &[u8]) -> Geometry {
    let features = features_of(p);
    Geometry {
        blocksize: word(p, 4),
        blocklog: byte(p, 15),
        sectsize: word(p, 20),
        sectlog: byte(p, 31),
        lsectsize: word(p, 36),
        lsectlog: byte(p, 47),
        inodesize: word(p, 52),
        inodelog: byte(p, 63),
        inopblock: word(p, 68),
        inopblog: byte(p, 79),
        dirblocklog: byte(p, 87),
        dblocks: long(p, 88),
        agsize: long(p, 96),
        agcount: long(p, 104),
        agblklog: byte(p, 119),
        imaxpct: byte(p, 127),
        logblocks: long(p, 128),
        logagno: long(p, 136),
        log_agbno: long(p, 144),
        features,
        label: bytes_at(p, 208),
        roomy: false,
    }
}
