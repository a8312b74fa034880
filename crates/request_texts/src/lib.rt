// What a text says: a name, as a number; a decimal number with a suffix.
#![tactic(auto)]

ghost use Rattle.std.specs.Prelude.{◌≡◌, ◌+◌, ◌-◌, ◌≤◌, ◌<◌, ◌^◌, ◌*◌, length, drop, not, position};
ghost use Rattle.std.specs.Option.{SomeIff};
ghost use Rattle.table_lines.specs.Decimal.{value_after};
ghost use Rattle.request_texts.specs.Texts.{said, within, is_digit, letter as letter_def, named, packed_name, leading as leading_def, suffix as suffix_def, factor as factor_def, number_text};

// What a text gives; `number` is 0, or says what is wrong beside the value 0.
#[derive(Clone, Copy)]
pub struct Value {
    pub number: u8,
    pub value: u64,
}

// A text that isn't what its word asks for.
pub const MALFORMED: u8 = 3;

// A number that is larger than its word allows.
pub const TOO_LARGE: u8 = 4;

// A name's number is 0 before its first byte and below this before its last.
const LONG: u64 = 0x400_0000_0000_0000;

// The number of what is no name.
const NOT_A_NAME: u64 = 0x8000_0000_0000_0000;

// What is wrong with a text, beside the value 0.
pub fn refused(number: u8) -> Value
    ensures { result ≡ said number 0 }
{
    Value { number, value: 0 }
}

// A small letter or a digit as a digit of base 37, from 1 on; 0 for any other byte.
#[tactic(auto, unfolding(crate::specs::Texts::letter))]
fn letter(b: u8) -> u64
    ensures { (result ≡ letter_def b) × (result ≤ 36) }
{
    match b {
        b'a'..=b'z' => u64::from(b - b'a') + 1,
        b'0'..=b'9' => u64::from(b - b'0') + 27,
        _ => 0,
    }
}

// A name with one byte more.
#[tactic(auto, unfolding(crate::specs::Texts::named))]
pub fn push(v: u64, b: u8) -> u64
    ensures { result ≡ named v b }
{
    let d = letter(b);
    if v < LONG && 0 < d {
        v * 37 + d
    } else {
        NOT_A_NAME
    }
}

// A name as a number.
pub fn pack(name: &[u8]) -> u64
    ensures { result ≡ packed_name name.now }
{
    name.iter().fold(0, |v, b| push(v, *b))
}

// Where the first byte that is no digit stands.
fn first_other(text: &[u8]) -> Option<usize>
    ensures { result ≡ position (λ b. not (is_digit b)) text.now }
{
    text.iter().position(|b| !b.is_ascii_digit())
}

// How many digits the text begins with.
pub fn leading(text: &[u8]) -> usize
    ensures { (result ≡ leading_def text.now) × (result ≤ length text.now) }
{
    first_other(text).unwrap_or(text.len())
}

// A number with one digit more, where it has 64 bits or fewer.
fn longer(value: u64, digit: u8) -> Option<u64>
    ensures { SomeIff result (value * 10 + (digit - 48) < 2 ^ 64) (value * 10 + (digit - 48)) }
{
    value
        .checked_mul(10)?
        .checked_add(u64::from(digit.saturating_sub(b'0')))
}

// The number that the digits say.
pub fn decimal(digits: &[u8]) -> Value
    ensures { result ≡ within (value_after 0 digits.now) }
{
    let mut value: u64 = 0;
    for digit in digits {
        value = match longer(value, *digit) {
            Some(next) => next,
            None => return refused(TOO_LARGE),
        };
    }
    Value { number: 0, value }
}

// What a suffix multiplies by; 0 for any other byte.
fn suffix(b: u8) -> u64
    ensures { result ≡ suffix_def b }
{
    match b {
        b'K' => 0x400,
        b'M' => 0x10_0000,
        b'G' => 0x4000_0000,
        b'T' => 0x100_0000_0000,
        b'P' => 0x4_0000_0000_0000,
        b'E' => 0x1000_0000_0000_0000,
        _ => 0,
    }
}

// What stands behind the first n bytes: nothing, or one suffix; 0 for anything else.
#[tactic(auto, unfolding(crate::specs::Texts::factor))]
fn factor(text: &[u8], n: usize) -> u64
    requires { n ≤ length text.now }
    ensures { result ≡ factor_def (drop n text.now) }
{
    match &text[n..] {
        [] => 1,
        [b] => suffix(*b),
        _ => 0,
    }
}

// A number with a suffix or none.
pub fn number(text: &[u8]) -> Value
    ensures { result ≡ number_text text.now }
{
    let n = leading(text);
    if n == 0 {
        return refused(MALFORMED);
    }
    let m = factor(text, n);
    if m == 0 {
        return refused(MALFORMED);
    }
    let v = decimal(&text[..n]);
    if v.number != 0 {
        return refused(TOO_LARGE);
    }
    match v.value.checked_mul(m) {
        Some(value) => Value { number: 0, value },
        None => refused(TOO_LARGE),
    }
}
