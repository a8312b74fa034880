// What planlist prints, part by part: a table begins with the input or with a geometry, and `fill` puts its next whole lines into a
// lent buffer until none is left.
#![tactic(auto)]

ghost use Rattle.std.specs.Prelude.{◌≡◌, ◌<◌, ◌&&◌, length, if◌then◌else◌, ◌==◌, nat_lt};
ghost use Rattle.refusals.specs.Numbers.{wrong_length};
ghost use Rattle.endian.specs.Bytes.{patch};
ghost use Rattle.plan_table.specs.Printed.{row_answer, table_answer, no_disk_bytes, plan_bytes};
ghost use Rattle.plan_table.specs.Filling.{table_refused, begun_table, no_disk, table_begun, after_line, rest_of, table_part, table_filled, Stepped};

pub mod rows; // rows.rt: a group's row from the summary of all groups
pub mod adding; // adding.rt: the sums of the rows, added from the last group to the first
pub mod lines; // lines.rt: each line of a table

use adding::{no_sums, sums_after};
use geometry::Geometry;
use lines::put_line;
use plan_summary::{Summary, no_summary, summary_of};
use rows::{no_row, row_in};
use table_lines::{Row, Total};

// A table, of which the last `left` lines aren't printed yet, and what is added up of its rows. The number is 0, or that of a refusal,
// which has one line.
#[derive(Clone, Copy)]
pub struct Table {
    pub number: u32,
    pub left: u64,
    pub summary: Summary,
    pub sums: Total,
}

// Where the next lines end in the buffer, and the table behind them; 27 where not even one of the lines that are left fits.
#[derive(Clone, Copy)]
pub struct Filled {
    pub number: u32,
    pub end: usize,
    pub table: Table,
}

fn refused(n: u32) -> Table
    ensures { result ≡ table_refused n }
{
    let summary = no_summary();
    let sums = no_sums();
    Table {
        number: n,
        left: 1,
        summary,
        sums,
    }
}

// The table of a geometry, or the line of 31 or 25.
pub fn begin_table(g: Geometry) -> Table
    ensures { (result ≡ begun_table g) × (rest_of result ≡ table_answer g) }
{
    let made = summary_of(g);
    let number = made.number;
    if number != 0 {
        return refused(number);
    }
    let summary = made.summary;
    let sums = no_sums();
    Table {
        number: 0,
        left: g.agcount + 2,
        summary,
        sums,
    }
}

// The table of no disk.
fn no_disk() -> Table
    ensures { (result ≡ no_disk) × (rest_of result ≡ no_disk_bytes) }
{
    let summary = no_summary();
    let sums = no_sums();
    Table {
        number: 0,
        left: 2,
        summary,
        sums,
    }
}

// What planlist prints of its input, where no bytes mean no disk.
pub fn begin(input: &[u8]) -> Table
    ensures { (result ≡ table_begun input.now) × (rest_of result ≡ plan_bytes input.now) }
{
    if input.len() == 0 {
        return no_disk();
    }
    let run = run::accept(input);
    let n = run.number;
    if n != 0 {
        return refused(n);
    }
    let g = run.geometry;
    begin_table(g)
}

// The table behind its next line.
fn after_line(t: Table) -> Table
    ensures { result ≡ after_line t }
{
    let sums = sums_after(t);
    let summary = t.summary;
    Table {
        number: t.number,
        left: t.left.saturating_sub(1),
        summary,
        sums,
    }
}

// The table behind the lines that are put, where the next line begins, and whether it had no room.
#[derive(Clone, Copy)]
struct Place {
    table: Table,
    end: usize,
    full: bool,
}

// The next line, where it fits.
fn step(at: Place, buf: &mut [u8]) -> Place
    ensures { Stepped at.table at.end buf.old result.table result.end result.full buf.new }
{
    let t = at.table;
    let w = put_line(t, buf, at.end);
    if w.number != 0 {
        return Place {
            table: t,
            end: at.end,
            full: true,
        };
    }
    let table = after_line(t);
    Place {
        table,
        end: w.end,
        full: false,
    }
}

// 27 where `n` lines were left and none was put.
fn number_of(n: u64, left: u64) -> u32
    ensures { result ≡ (if nat_lt 0 n && left == n then wrong_length else 0) }
{
    if n == 0 {
        return 0;
    }
    if left == n {
        return refusals::WRONG_LENGTH;
    }
    0
}

// The next lines of a table, as many as fit whole, from the buffer's start on.
pub fn fill(t: Table, buf: &mut [u8]) -> Filled
    ensures value { result ≡ table_filled t (length buf.old) }
    ensures buf_after { buf.new ≡ patch 0 (table_part t (length buf.old)) buf.old }
{
    let mut at = Place {
        table: t,
        end: 0,
        full: false,
    };
    while 0 < at.table.left && !at.full {
        at = step(at, buf);
    }
    let table = at.table;
    let number = number_of(t.left, table.left);
    Filled {
        number,
        end: at.end,
        table,
    }
}

// The row of group k: 31, 25 where a plan is refused, 29 where there is no such group.
pub fn row_at(g: Geometry, k: u64) -> Row
    ensures { result ≡ row_answer g k }
{
    let all = summary_of(g);
    let m = all.number;
    if m != 0 {
        return no_row(m);
    }
    let s = all.summary;
    row_in(s, k)
}
