// A row of numbers, 8 bytes each, as an answer has them; what isn't put is 0.
ghost use Rattle.std.specs.Prelude.{◌≤◌, ◌<◌};

use btree::{AllocRec, RmapRec};
use params::Features;

// What a function answers: its number, and how many bytes of the row.
#[derive(Clone, Copy)]
pub(crate) struct Answer {
    pub(crate) number: u32,
    pub(crate) length: usize,
}

// A number alone.
pub(crate) fn refused(number: u32) -> Answer {
    Answer { number, length: 0 }
}

// Puts numbers one behind the other, from the place `k` on, as far as there is room.
pub(crate) fn put(row: &mut [u8], k: usize, numbers: &[u64]) {
    if let Some(rest) = row.get_mut(k.saturating_mul(8)..) {
        for (place, number) in rest.chunks_mut(8).zip(numbers) {
            endian::put64(place, 0, *number);
        }
    }
}

// Puts the first `width` numbers of each of the first `n` records, from the place `at` on.
pub(crate) fn put_each<T, F: Fn(&T) -> [u64; 3]>(
    row: &mut [u8; 16384],
    at: usize,
    width: usize,
    recs: &[T],
    n: usize,
    numbers: F,
)
    requires { (at ≤ 2048) × (0 < width) × (width ≤ 3) × F.IsAlwaysCallable numbers }
{
    let places = row[8 * at..].chunks_mut(8 * width);
    for (place, rec) in places.zip(recs.iter().take(n)) {
        put(place, 0, &numbers(rec));
    }
}

// Start and length of a free record.
pub(crate) fn run(r: &AllocRec) -> [u64; 3] {
    [u64::from(r.start), u64::from(r.count), 0]
}

// Start, length and owner of a reverse mapping.
pub(crate) fn mapping(r: &RmapRec) -> [u64; 3] {
    [u64::from(r.start), u64::from(r.count), r.owner]
}

// 1 for each feature that is on.
pub(crate) fn features(f: Features) -> [u64; 7] {
    [
        u64::from(f.finobt),
        u64::from(f.rmapbt),
        u64::from(f.reflink),
        u64::from(f.inobtcount),
        u64::from(f.bigtime),
        u64::from(f.nrext64),
        u64::from(f.sparse),
    ]
}
