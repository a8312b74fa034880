// Prints a table to a writer: part by part, each filled into a lent buffer and written.
#![tactic(auto)]

ghost use Rattle.std.specs.Prelude.{◌≡◌, true, length};
ghost use Rattle.plan_table.specs.Filling.{table_behind, table_filled, Printing};

use plan_table::{Table, fill};
use std::io::{Error, Result, Write};

// The table behind the parts that were filled, whether each of them was written, and why the last one was not, where the writer said so.
#[derive(Clone, Copy)]
pub struct Printed {
    pub table: Table,
    pub written: bool,
    pub error: Option<Error>,
}

// Writes the first `end` bytes.
fn flush<W: Write>(out: &mut W, buf: &[u8], end: usize) -> Result<()> {
    match buf.get(..end) {
        Some(lines) => out.write_all(lines),
        None => Err(Error::other("the lines end behind their buffer")),
    }
}

// Fills the next part and writes it.
fn turn<W: Write>(out: &mut W, t: Table, buf: &mut [u8]) -> Printed
    ensures table_value { result.table ≡ table_behind t (length buf.old) }
    ensures buf_value { result.written ≡ true → (table_filled t (length buf.old)).number ≡ 0 }
{
    let f = fill(t, buf);
    let table = f.table;
    if f.number != 0 {
        return Printed {
            table,
            written: false,
            error: None,
        };
    }
    let flushed = flush(out, buf, f.end);
    Printed {
        table,
        written: flushed.is_ok(),
        error: flushed.err(),
    }
}

// Fills and writes part after part until no line is left. It stops where a write fails, and where not even one line fits the buffer.
pub fn print<W: Write>(out: &mut W, t: Table, buf: &mut [u8]) -> Printed
    ensures { Printing (length buf.old) t result.table result.written }
{
    let mut p = Printed {
        table: t,
        written: true,
        error: None,
    };
    // the new form is no plainer: a turn says itself whether it is the last
    while p.written && 0 < p.table.left {
        p = turn(out, p.table, buf);
    }
    p
}
