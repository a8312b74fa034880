// The sums of a table's rows: with each row's line the row of another group is added, from the last group to the first.
ghost use Rattle.std.specs.Prelude.{◌≡◌};
ghost use Rattle.plan_table.specs.Filling.{no_sums, with_row, sums_after};

use crate::Table;
use crate::rows::row_in;
use table_lines::{Row, Total};

pub(crate) fn no_sums() -> Total
    ensures { result ≡ no_sums }
{
    Total {
        length: 0,
        log: 0,
        list: 0,
        chunk: 0,
        free: 0,
    }
}

// The sums and a row. No sum of a disk's rows wraps (`any_order`, plan_orders).
fn with_row(t: Total, r: Row) -> Total
    ensures { result ≡ with_row t r }
{
    Total {
        length: std::num::wrapping_add_u64(t.length, r.length as u64),
        log: std::num::wrapping_add_u64(t.log, r.log as u64),
        list: std::num::wrapping_add_u64(t.list, r.list as u64),
        chunk: std::num::wrapping_add_u64(t.chunk, r.chunk as u64),
        free: std::num::wrapping_add_u64(t.free, r.free as u64),
    }
}

// The sums behind the next line: with the row of group i, that of group agcount - 1 - i is added.
pub(crate) fn sums_after(t: Table) -> Total
    ensures { result ≡ sums_after t }
{
    let sums = t.sums;
    if t.number != 0 {
        return sums;
    }
    let left = t.left;
    if left <= 1 {
        return sums;
    }
    let s = t.summary;
    let groups = s.agcount;
    if groups < left - 1 {
        return sums;
    }
    let put = groups - (left - 1);
    let row = row_in(s, groups.saturating_sub(1).saturating_sub(put));
    with_row(sums, row)
}
