// The log's first block as an accepted run leaves it, made here and compared.
ghost use Rattle.std.specs.Prelude.{◌≡◌, ◌≤◌, length};
ghost use Rattle.reader_exact.specs.Read.{read_log};

use crate::place_number;
use geometry::Geometry;
use group_bytes::log_block;

// The largest block.
const LARGEST_BLOCK: usize = 16384;

fn blank() -> [u8; 16384]
    ensures { 16384 ≡ length result }
{
    [0; 16384]
}

// The number of a block, with a work buffer of its length. Where none is made, the bytes are refused whatever stands in that buffer.
fn with_buffer(g: Geometry, uuid: [u8; 16], block: &[u8], work: &mut [u8]) -> u32
    requires { length work.old ≡ length block.now }
    ensures { result ≡ read_log g uuid block.now }
{
    log_block(g, uuid, work);
    place_number(g, false, g.blocksize as usize, work, block)
}

fn in_buffer(g: Geometry, uuid: [u8; 16], block: &[u8]) -> u32
    requires { length block.now ≤ 16384 }
    ensures { result ≡ read_log g uuid block.now }
{
    let n = block.len();
    let mut work = blank();
    with_buffer(g, uuid, block, &mut work[..n])
}

// The number of the log's first block: 31, 27, 30, or 0. Bytes that are longer than any block are refused, so that they may be compared
// with any.
pub fn log_number(g: Geometry, uuid: [u8; 16], block: &[u8]) -> u32
    ensures { result ≡ read_log g uuid block.now }
{
    if block.len() <= LARGEST_BLOCK {
        return in_buffer(g, uuid, block);
    }
    place_number(g, false, g.blocksize as usize, block, block)
}
