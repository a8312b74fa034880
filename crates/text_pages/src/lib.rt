// A line of a page, by its number, written into a lent buffer: 0 and where it ends, or 27 where it doesn't fit, and then nothing has
// changed.
#![tactic(auto)]

ghost use Rattle.std.specs.Prelude.{◌≡◌, ◌+◌, ◌≤◌, max, length, drop, eqb};
ghost use Rattle.seqs.specs.Lists.{first_index};
ghost use Rattle.table_lines.specs.Lines.{PutLine};
ghost use Rattle.text_pages.specs.Pages.{place_of_byte, behind_lines, line_at};

use table_lines::Written;

// Where the first byte b stands; the length where it doesn't.
fn first_of(bytes: &[u8], b: u8) -> usize
    ensures { (result ≡ first_index (λ c. eqb c b) bytes.now) × (result ≤ length bytes.now) }
{
    bytes.iter().position(|c| *c == b).unwrap_or(bytes.len())
}

// Where the first byte b stands, from an offset on; the length where it doesn't.
pub fn place_of(bytes: &[u8], at: usize, b: u8) -> usize
    ensures { (result ≡ place_of_byte b at bytes.now) × (at ≤ result) × (result ≤ max at (length bytes.now)) }
{
    match bytes.get(at..) {
        Some(rest) => at + first_of(rest, b),
        None => at,
    }
}

// Where the line behind the one that holds an offset begins; the length where there is none.
fn next_line(page: &[u8], at: usize) -> usize
    requires { at ≤ length page.now }
    ensures { (behind_lines 1 (drop at page.now) ≡ drop result page.now) × (result ≤ length page.now) }
{
    let end = place_of(page, at, b'\n');
    let len = page.len();
    if end < len {
        return end + 1;
    }
    len
}

// Where line n begins; the length where there are fewer.
fn line_start(page: &[u8], n: usize) -> usize
    ensures { (drop result page.now ≡ behind_lines n page.now) × (result ≤ length page.now) }
{
    let mut at = 0;
    for i in 0..n {
        if at == page.len() {
            return at;
        }
        at = next_line(page, at);
    }
    at
}

// A text as it stands.
pub fn put_text(text: &[u8], buf: &mut [u8], at: usize) -> Written
    ensures { PutLine at text.now buf.old result.number result.end buf.new }
{
    let n = text.len();
    if endian::inside(buf.len(), at, n) {
        let end = at + n;
        endian::put_bytes(buf, at, text);
        return Written { number: 0, end };
    }
    Written {
        number: refusals::WRONG_LENGTH,
        end: 0,
    }
}

// Line n, without its newline.
pub fn put_line(page: &[u8], n: usize, buf: &mut [u8], at: usize) -> Written
    ensures { PutLine at (line_at n page.now) buf.old result.number result.end buf.new }
{
    let from = line_start(page, n);
    let end = place_of(page, from, b'\n');
    put_text(&page[from..end], buf, at)
}
