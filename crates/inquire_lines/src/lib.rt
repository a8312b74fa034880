// What the lines of `inquire` are made of, written into a lent buffer: a word and a number, or a word alone; and the line of a list's size.
// As in table_lines: 0 and where the bytes end, or 27 where they don't fit, and then nothing has changed.
#![tactic(auto)]

ghost use Rattle.refusals.specs.Numbers.{wrong_length};
ghost use Rattle.std.specs.Prelude.{◌≡◌, false, cond, length};
ghost use Rattle.table_lines.specs.Lines.{space, newline, PutLine};
ghost use Rattle.inquire_lines.specs.Items.{with_byte, word_bytes, item_bytes, pair_bytes, size_bytes};

use list_size::ListSize;
use table_lines::decimal::decimal_length;
use table_lines::{Written, put_number};

fn refused() -> Written
    ensures { (result.number ≡ wrong_length) × (result.end ≡ 0) }
{
    Written {
        number: refusals::WRONG_LENGTH,
        end: 0,
    }
}

// What stands behind an item: a space, or a newline behind the last of a line.
fn behind(last: bool) -> u8
    ensures { result ≡ cond last newline space }
{
    if last { b'\n' } else { b' ' }
}

// A word and the byte behind it.
fn put_followed(word: &[u8], byte: u8, buf: &mut [u8], at: usize) -> Written
    ensures { PutLine at (with_byte word.now byte) buf.old result.number result.end buf.new }
{
    let n = word.len();
    if endian::inside(buf.len(), at, n + 1) {
        let end = at + n;
        buf[end] = byte;
        endian::put_bytes(buf, at, word);
        return Written {
            number: 0,
            end: end + 1,
        };
    }
    refused()
}

// A word alone, as a line: `formatted`.
pub fn put_word(word: &[u8], buf: &mut [u8], at: usize) -> Written
    ensures { PutLine at (word_bytes word.now) buf.old result.number result.end buf.new }
{
    put_followed(word, b'\n', buf, at)
}

// A word and a number, with a space behind them, or a newline where they end the line: `left 7`.
pub fn put_item(word: &[u8], number: u64, last: bool, buf: &mut [u8], at: usize) -> Written
    ensures { PutLine at (item_bytes word.now number last) buf.old result.number result.end buf.new }
{
    let n = word.len() + 1;
    if endian::inside(buf.len(), at, n) {
        let w = put_number(number, behind(last), buf, at + n);
        if w.number != 0 {
            return w;
        }
        put_followed(word, b' ', buf, at);
        return w;
    }
    refused()
}

// The bytes of a word and its number, and the one behind them.
fn item_length(word: &[u8], number: u64) -> usize
    ensures { result ≡ length (item_bytes word.now number false) }
{
    word.len() + 1 + decimal_length(number) + 1
}

// A word and its number, and a second pair that ends the line: `bytes 7 payload 5`.
fn put_pair(first: &[u8], a: u64, second: &[u8], b: u64, buf: &mut [u8], at: usize) -> Written
    ensures { PutLine at (pair_bytes first.now a second.now b) buf.old result.number result.end
        buf.new }
{
    let n = item_length(first, a);
    if endian::inside(buf.len(), at, n) {
        let w = put_item(second, b, true, buf, at + n);
        if w.number != 0 {
            return w;
        }
        put_item(first, a, false, buf, at);
        return w;
    }
    refused()
}

// The line of `inquire length`: `records 43 bytes 156390 payload 155648`.
pub fn put_size(s: ListSize, buf: &mut [u8], at: usize) -> Written
    ensures { PutLine at (size_bytes s) buf.old result.number result.end buf.new }
{
    let n = item_length(b"records", s.records);
    if endian::inside(buf.len(), at, n) {
        let w = put_pair(b"bytes", s.bytes, b"payload", s.payload, buf, at + n);
        if w.number != 0 {
            return w;
        }
        put_item(b"records", s.records, false, buf, at);
        return w;
    }
    refused()
}
