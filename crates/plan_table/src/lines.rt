// Each line of a table, written where it fits.
ghost use Rattle.std.specs.Prelude.{◌≡◌};
ghost use Rattle.table_lines.specs.Lines.{PutLine, row_bytes};
ghost use Rattle.plan_summary.specs.Summaries.{row_by_summary};
ghost use Rattle.plan_table.specs.Filling.{line_of};

use crate::Table;
use crate::rows::row_in;
use plan_summary::Summary;
use table_lines::{Written, put_header, put_refused, put_row, put_total};

// The line of group k.
fn put_group(s: Summary, k: u64, buf: &mut [u8], at: usize) -> Written
    ensures { PutLine at (row_bytes (row_by_summary s k)) buf.old result.number result.end buf.new }
{
    let row = row_in(s, k);
    put_row(row, buf, at)
}

// The next line of a table.
pub(crate) fn put_line(t: Table, buf: &mut [u8], at: usize) -> Written
    ensures { PutLine at (line_of t) buf.old result.number result.end buf.new }
{
    let number = t.number;
    if number != 0 {
        return put_refused(number as u64, buf, at);
    }
    let left = t.left;
    if left <= 1 {
        let sums = t.sums;
        return put_total(sums, buf, at);
    }
    let s = t.summary;
    let groups = s.agcount;
    if left - 1 <= groups {
        return put_group(s, groups - (left - 1), buf, at);
    }
    put_header(buf, at)
}
