// The lines that planlist and inquire print, written into a lent buffer: 0 and the line's end, or 27 where a line doesn't fit, and then
// nothing has changed.
#![tactic(auto)]

pub mod decimal; // numbers in decimal

ghost use Rattle.std.specs.Prelude.{◌≡◌, [], ◌∷◌, ◌++◌, ◌+◌, ◌≤◌, length};
ghost use Rattle.refusals.specs.Numbers.{wrong_length};
ghost use Rattle.endian.specs.Bytes.{patch};
ghost use Rattle.table_lines.specs.Decimal.{decimal};
ghost use Rattle.table_lines.specs.Lines.{line, row_bytes, header_bytes, total_bytes, refused_bytes, answer_bytes, run_line, PutLine};

use decimal::{decimal_length, store_number};

// A row of planlist's table, in blocks; a group's fit in 32 bits. The number is 0 for a planned group; a refusal has zeros.
#[derive(Clone, Copy)]
pub struct Row {
    pub number: u32,
    pub group: u64,
    pub length: u32, // all
    pub log: u32,
    pub list: u32, // free list
    pub chunk: u32,
    pub free: u32,
    pub longest: u32, // longest free record
}

// The last line of the table: sums over all groups, in 64 bits.
#[derive(Clone, Copy)]
pub struct Total {
    pub length: u64,
    pub log: u64,
    pub list: u64,
    pub chunk: u64,
    pub free: u64,
}

// Where a line ends; `number` is 0, or 27 beside 0.
#[derive(Clone, Copy)]
pub struct Written {
    pub number: u32,
    pub end: usize,
}

// The bytes of a line of at most seven numbers.
fn line_length(numbers: &[u64]) -> usize
    requires { length numbers.now ≤ 7 }
    ensures { (result ≡ length (line numbers.now)) × (result ≤ 147) }
{
    numbers.iter().map(|n| decimal_length(*n) + 1).sum()
}

// The line that ends at `end`, from its last number to its first.
fn store_line(numbers: &[u64], buf: &mut [u8], end: usize) -> usize
    requires { (length (line numbers.now) ≤ end) × (end ≤ length buf.old) }
    ensures { (result + length (line numbers.now) ≡ end)
        × (buf.new ≡ patch result (line numbers.now) buf.old) }
{
    let mut at = end;
    let mut behind = b'\n';
    for number in numbers.iter().rev() {
        at = store_number(*number, behind, buf, at);
        behind = b' ';
    }
    at
}

fn refused() -> Written
    ensures { (result.number ≡ wrong_length) × (result.end ≡ 0) }
{
    Written {
        number: refusals::WRONG_LENGTH,
        end: 0,
    }
}

// A number and the byte behind it, where both fit: what other lines are made of.
pub fn put_number(number: u64, behind: u8, buf: &mut [u8], at: usize) -> Written
    ensures { PutLine at (decimal number ++ (behind ∷ [])) buf.old result.number result.end buf.new }
{
    let n = decimal_length(number) + 1;
    if endian::inside(buf.len(), at, n) {
        let end = at + n;
        store_number(number, behind, buf, end);
        return Written { number: 0, end };
    }
    refused()
}

// At most seven numbers, where the line fits.
fn put_line(numbers: &[u64], buf: &mut [u8], at: usize) -> Written
    requires { length numbers.now ≤ 7 }
    ensures { PutLine at (line numbers.now) buf.old result.number result.end buf.new }
{
    let n = line_length(numbers);
    if endian::inside(buf.len(), at, n) {
        let end = at + n;
        store_line(numbers, buf, end);
        return Written { number: 0, end };
    }
    refused()
}

// A word of at most eight bytes, and behind it the numbers.
fn put_words(word: &[u8], numbers: &[u64], buf: &mut [u8], at: usize) -> Written
    requires { (length word.now ≤ 8) × (length numbers.now ≤ 7) }
    ensures { PutLine at (word.now ++ line numbers.now) buf.old result.number result.end
        buf.new }
{
    let n = word.len() + line_length(numbers);
    if endian::inside(buf.len(), at, n) {
        let end = at + n;
        store_line(numbers, buf, end);
        endian::put_bytes(buf, at, word);
        return Written { number: 0, end };
    }
    refused()
}

// A group's line.
pub fn put_row(row: Row, buf: &mut [u8], at: usize) -> Written
    ensures { PutLine at (row_bytes row) buf.old result.number result.end buf.new }
{
    let numbers = [
        row.group,
        row.length as u64,
        row.log as u64,
        row.list as u64,
        row.chunk as u64,
        row.free as u64,
        row.longest as u64,
    ];
    put_line(&numbers, buf, at)
}

// A line of at most 41 bytes, as it stands.
fn put_text(text: &[u8], buf: &mut [u8], at: usize) -> Written
    requires { length text.now ≤ 41 }
    ensures { PutLine at text.now buf.old result.number result.end buf.new }
{
    let n = text.len();
    if endian::inside(buf.len(), at, n) {
        let end = at + n;
        endian::put_bytes(buf, at, text);
        return Written { number: 0, end };
    }
    refused()
}

// The line of the fields' names.
pub fn put_header(buf: &mut [u8], at: usize) -> Written
    ensures { PutLine at header_bytes buf.old result.number result.end buf.new }
{
    let text = b"group length log list chunk free longest\n";
    put_text(text, buf, at)
}

// The line of the sums.
pub fn put_total(sums: Total, buf: &mut [u8], at: usize) -> Written
    ensures { PutLine at (total_bytes sums) buf.old result.number result.end buf.new }
{
    let numbers = [sums.length, sums.log, sums.list, sums.chunk, sums.free];
    put_words(b"total ", &numbers, buf, at)
}

// The line of a refusal.
pub fn put_refused(number: u64, buf: &mut [u8], at: usize) -> Written
    ensures { PutLine at (refused_bytes number) buf.old result.number result.end buf.new }
{
    let numbers = [number];
    put_words(b"refused ", &numbers, buf, at)
}

// The line of a call of `inquire holds`: what it did, or its refusal where the number isn't 0.
pub fn put_answer(release: bool, number: u64, buf: &mut [u8], at: usize) -> Written
    ensures { PutLine at (answer_bytes release number) buf.old result.number result.end buf.new }
{
    if number != 0 {
        return put_refused(number, buf, at);
    }
    if release {
        return put_text(b"released\n", buf, at);
    }
    put_text(b"held\n", buf, at)
}

// The line of a free record, or of a run held.
pub fn put_run(held: bool, start: u64, count: u64, buf: &mut [u8], at: usize) -> Written
    ensures { PutLine at (run_line held start count) buf.old result.number result.end buf.new }
{
    let numbers = [start, count];
    if held {
        return put_words(b"held ", &numbers, buf, at);
    }
    put_words(b"free ", &numbers, buf, at)
}
