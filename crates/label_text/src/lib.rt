// A label as text: every byte that isn't printable ASCII is escaped, so that a terminal shows it and does nothing else.
#![tactic(auto)]

ghost use Rattle.std.specs.Prelude.{◌≡◌, false, ◌+◌, ◌-◌, ◌≤◌, ◌<◌, length};
ghost use Rattle.endian.specs.Bytes.{patch};
ghost use Rattle.label_text.specs.Text.{is_plain, hex_digit, escape, shown_byte, label_text, text_of};

// The bytes of a text, from `start` on.
#[derive(Clone, Copy)]
pub struct LabelText {
    pub bytes: [u8; 48],
    pub start: usize,
}

// A printable byte, neither quote nor backslash.
fn is_plain(b: u8) -> bool
    ensures { result ≡ is_plain b }
{
    if b < 32 {
        return false;
    }
    if 126 < b {
        return false;
    }
    if b == b'"' {
        return false;
    }
    if b == b'\\' {
        return false;
    }
    true
}

// The byte of a hexadecimal digit.
fn hex_digit(d: u8) -> u8
    requires { d < 16 }
    ensures { result ≡ hex_digit d }
{
    if d < 10 {
        return 48 + d;
    }
    87 + d
}

// Stores the escape of a byte so that it ends at `end`; says where it begins.
fn store_hex(b: u8, buf: &mut [u8], end: usize) -> usize
    requires { (4 ≤ end) × (end ≤ length buf.old) × (is_plain b ≡ false) }
    ensures { (result + length (escape b) ≡ end) × (buf.new ≡ patch result (escape b) buf.old) }
{
    let text = [b'\\', b'x', hex_digit(b / 16), hex_digit(b % 16)];
    let at = end - 4;
    endian::put_bytes(buf, at, &text);
    at
}

// Stores the text of a byte so that it ends at `end`; says where it begins.
fn store_byte(b: u8, buf: &mut [u8], end: usize) -> usize
    requires { (4 ≤ end) × (end ≤ length buf.old) }
    ensures { (result + length (escape b) ≡ end) × (buf.new ≡ patch result (escape b) buf.old) }
{
    if is_plain(b) {
        buf[end - 1] = b;
        return end - 1;
    }
    store_hex(b, buf, end)
}

// The same before a text of 48 − `end` bytes.
fn store_before(b: u8, buf: &mut [u8], end: usize) -> usize
    requires { (4 ≤ end) × (end ≤ 48) × (length buf.old ≡ 48) }
    ensures { (result + length (shown_byte b (48 - end)) ≡ end)
        × (buf.new ≡ patch result (shown_byte b (48 - end)) buf.old) }
{
    if b == 0 {
        if end == 48 {
            return end;
        }
        return store_byte(b, buf, end);
    }
    store_byte(b, buf, end)
}

// Stores the text of a label at the end of the buffer, from its last byte to its first; says where it begins.
fn store_label(label: &[u8], buf: &mut [u8]) -> usize
    requires { (length label.now ≡ 12) × (length buf.old ≡ 48) }
    ensures { (result + length (label_text label.now) ≡ 48)
        × (buf.new ≡ patch result (label_text label.now) buf.old) }
{
    let mut at = 48;
    for b in label.iter().rev() {
        at = store_before(*b, buf, at);
    }
    at
}

// The text of a label, without the zeros that fill it up.
pub fn text_of(label: [u8; 12]) -> LabelText
    ensures { result ≡ text_of label }
{
    let mut bytes = [0u8; 48];
    let start = store_label(&label, &mut bytes);
    LabelText { bytes, start }
}
