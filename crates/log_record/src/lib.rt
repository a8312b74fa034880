// The log as a formatter leaves it: zeros, with one record at its start that holds an unmount record. The Rust's structs/log.rs.
#![tactic(auto)]

pub mod parts; // the pieces of a record: length, header, the unmount record, stamps

ghost use Rattle.std.specs.Prelude.{◌≡◌, ◌^◌, length};
ghost use Rattle.structs.specs.Written.{Written};
ghost use Rattle.log_record.specs.Record.{clear_sunit, lsn_of, record_number, log_record_bytes};

use parts::{header, record_blocks, stamp_blocks, unmount};

// The largest log stripe unit, in bytes.
pub const LARGEST_SUNIT: u32 = 16384;

// The stripe unit that a log is cleared with: 1 stands for the log's sector size, which is 0 for 512 bytes.
pub fn clear_sunit(logsunit: u32, logsectsize: u32) -> u32
    ensures { result ≡ clear_sunit logsunit logsectsize }
{
    if logsunit == 1 {
        return logsectsize;
    }
    logsunit
}

// A log sequence number: cycle and basic block.
pub fn lsn(cycle: u32, block: u32) -> u64
    ensures { result ≡ lsn_of cycle block }
{
    (cycle as u64) * 0x1_0000_0000 + (block as u64)
}

// One record that holds only an unmount record; `sunit` in bytes, 0 for none. 27 for the length, 35 for the stripe unit.
pub fn record(uuid: &[u8; 16], sunit: u32, lsn: u64, tail_lsn: u64, rec: &mut [u8]) -> u32
    ensures { Written (record_number sunit (length rec.old)) (log_record_bytes uuid.now sunit lsn tail_lsn)
        rec.old result rec.new }
{
    let blocks = record_blocks(sunit);
    let need = parts::BBSIZE * blocks;
    if rec.len() != need {
        return refusals::WRONG_LENGTH;
    }
    if LARGEST_SUNIT < sunit {
        return refusals::SUNIT_TOO_LARGE;
    }
    let cycle = (lsn / 0x1_0000_0000) as u32;
    endian::put_same(rec, 0, rec.len(), 0);
    header(rec, uuid, sunit, lsn, tail_lsn);
    unmount(rec, cycle);
    stamp_blocks(rec, blocks, cycle);
    0
}

// The first record of a log: cycle 1, block 0.
pub fn first_record(uuid: &[u8; 16], sunit: u32, rec: &mut [u8]) -> u32
    ensures { Written (record_number sunit (length rec.old)) (log_record_bytes uuid.now sunit (2 ^ 32) (2 ^ 32))
        rec.old result rec.new }
{
    let l = lsn(1, 0);
    record(uuid, sunit, l, l, rec)
}
