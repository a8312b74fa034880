// The words of the calls: `hold:START:LENGTH`, `release:START:LENGTH`, and a decimal number by itself.
ghost use Rattle.std.specs.Prelude.{◌≡◌, true, ◌<◌, length};
ghost use Rattle.inquire_holds.specs.Words.{number_alone, no_call, called_with, run_in, word_is, call_in};

use crate::Call;
use request_texts::{MALFORMED, Value, decimal, leading, pack, refused};

// The names `hold` and `release` as numbers.
const HOLD: u64 = 426207;

const RELEASE: u64 = 46552540421;

// A decimal number with nothing before or behind it.
#[tactic(auto, unfolding(crate::specs::Words::number_alone))]
pub fn number_alone(text: &[u8]) -> Value
    ensures { result ≡ number_alone text.now }
{
    let n = leading(text);
    if 0 < n && n == text.len() {
        decimal(text)
    } else {
        refused(MALFORMED)
    }
}

fn no_call(number: u8) -> Call
    ensures { result ≡ no_call number }
{
    Call {
        number,
        release: false,
        at: 0,
        length: 0,
    }
}

// The call of two numbers, or what is wrong with the first that is refused.
fn called(release: bool, at: Value, length: Value) -> Call
    ensures { result ≡ called_with release at length }
{
    if at.number != 0 {
        return no_call(at.number);
    }
    if length.number != 0 {
        return no_call(length.number);
    }
    Call {
        number: 0,
        release,
        at: at.value,
        length: length.value,
    }
}

// The call of `START:LENGTH`.
fn run_in(release: bool, text: &[u8]) -> Call
    ensures { result ≡ run_in release text.now }
{
    let n = leading(text);
    if n < text.len() && text[n] == b':' {
        called(
            release,
            number_alone(&text[..n]),
            number_alone(&text[n + 1..]),
        )
    } else {
        no_call(MALFORMED)
    }
}

// The text begins with a name of n bytes and a colon.
fn word_is(text: &[u8], n: usize, name: u64) -> bool
    ensures { (result ≡ word_is n name text.now) × (result ≡ true → n < length text.now) }
{
    n < text.len() && pack(&text[..n]) == name && text[n] == b':'
}

// The call that a word says.
pub fn call_of(text: &[u8]) -> Call
    ensures { result ≡ call_in text.now }
{
    if word_is(text, 4, HOLD) {
        return run_in(false, &text[5..]);
    }
    if word_is(text, 7, RELEASE) {
        return run_in(true, &text[8..]);
    }
    no_call(MALFORMED)
}
