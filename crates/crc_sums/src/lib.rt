// The checksums of several structures in one buffer: as they stand before something is written, and whether they stand there afterwards.
#![tactic(auto)]

ghost use Rattle.std.specs.Prelude.{◌≡◌};
ghost use Rattle.crc_sums.specs.Sums.{sums_in, same_sums};

use crc::stored;

// At most so many places are looked at: the inodes of a chunk.
pub const MOST: usize = 64;

// The checksums that stand at the places, and zeros behind them.
pub fn sums_at(buf: &[u8], places: &[usize]) -> [u32; 64]
    ensures { result ≡ sums_in 64 places.now buf.now }
{
    let n = places.len().min(MOST);
    let mut sums = [0u32; 64];
    for (i, place) in places[..n].iter().enumerate() {
        sums[i] = stored(buf, *place);
    }
    sums
}

// Whether these checksums stand at the places.
pub fn same_sums(buf: &[u8], places: &[usize], sums: &[u32]) -> bool
    ensures { result ≡ same_sums places.now sums.now buf.now }
{
    places
        .iter()
        .zip(sums)
        .all(|(place, sum)| *sum == stored(buf, *place))
}
