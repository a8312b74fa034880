// The log's record at its start, and zeros.
ghost use Rattle.std.specs.Prelude.{◌≡◌, ◌≤◌, ◌^◌, length};
ghost use Rattle.endian.specs.Bytes.{patch};
ghost use Rattle.log_record.specs.Record.{record_number, log_record_bytes};
ghost use Rattle.list_spec.specs.Listing.{log_unit, log_block};
ghost use Rattle.group_bytes.specs.Answers.{log_refusal};

use arith::choice::pick;
use arith::numbers::max_u32;
use geometry::Geometry;
use geometry_counts::stripes::{logsunit_of, lsunit_of};
use log_record::{clear_sunit, first_record};
use plan_summary::plans_number;

// Bytes of the shortest record of the log.
const LEAST_RECORD: u32 = 1024;

// 31, 25, 27, or 0.
pub(crate) fn log_number(g: Geometry, len: usize) -> u32
    ensures { result ≡ log_refusal g len }
{
    let plans = plans_number(g);
    if plans != 0 {
        return plans;
    }
    if len != g.blocksize as usize {
        return refusals::WRONG_LENGTH;
    }
    0
}

// The stripe unit that the log is cleared with.
fn log_unit(g: Geometry) -> u32
    ensures { result ≡ log_unit g }
{
    let stored = logsunit_of(lsunit_of(g.lsectsize, g.blocksize));
    let sector = pick(512 < g.sectsize, g.lsectsize, 0);
    clear_sunit(stored, sector)
}

// The log's record in the first n bytes.
fn put_record(uuid: &[u8; 16], unit: u32, n: usize, block: &mut [u8])
    requires { (record_number unit n ≡ 0) × (n ≤ length block.old) }
    ensures { block.new ≡ patch 0 (log_record_bytes uuid.now unit (2 ^ 32) (2 ^ 32)) block.old }
{
    first_record(uuid, unit, &mut block[0..0 + n]);
}

// The whole block.
pub(crate) fn fill_log(g: Geometry, uuid: [u8; 16], block: &mut [u8])
    requires { log_refusal g (length block.old) ≡ 0 }
    ensures { block.new ≡ log_block g uuid }
{
    let unit = log_unit(g);
    let n = block.len();
    endian::put_same(block, 0, n, 0);
    put_record(&uuid, unit, max_u32(LEAST_RECORD, unit) as usize, block);
}
