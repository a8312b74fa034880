// The checksum. The parameter is an offset (8), and the value is the result.
use crate::cases::Answer;
use replay_frames::long;

pub(crate) fn crc32c(buf: &[u8]) -> Answer {
    Answer {
        number: 0,
        value: crc::crc32c(buf) as u64,
    }
}

pub(crate) fn cksum(p: &[u8], buf: &[u8]) -> Answer {
    let r = crc::cksum(buf, long(p, 0) as usize);
    Answer {
        number: r.number,
        value: r.value as u64,
    }
}

pub(crate) fn stamp(p: &[u8], buf: &mut [u8]) -> Answer {
    let made = crc::stamp(buf, long(p, 0) as usize);
    Answer::from(made.number)
}

pub(crate) fn verify(p: &[u8], buf: &[u8]) -> Answer {
    Answer {
        number: 0,
        value: arith::choice::bit_of(crc::verify(buf, long(p, 0) as usize)),
    }
}
