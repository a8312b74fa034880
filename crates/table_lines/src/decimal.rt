// Numbers in decimal.
ghost use Rattle.std.specs.Prelude.{◌≡◌, [], ◌∷◌, ◌++◌, ◌+◌, ◌≤◌, ◌<◌, length};
ghost use Rattle.endian.specs.Bytes.{patch};
ghost use Rattle.table_lines.specs.Decimal.{decimal};

// How many digits the number has.
pub fn decimal_length(n: u64) -> usize
    ensures { (result ≡ length (decimal n)) × (result ≤ 20) }
{
    match n.checked_ilog10() {
        Some(k) => k as usize + 1,
        None => 1,
    }
}

// The digits that end at `end`, from the last to the first; says where they begin.
fn store_digits(n: u64, buf: &mut [u8], end: usize) -> usize
    requires { (length (decimal n) ≤ end) × (end ≤ length buf.old) }
    ensures { (result + length (decimal n) ≡ end) × (buf.new ≡ patch result (decimal n) buf.old) }
{
    let mut i = end;
    let mut x = n;
    while 10 <= x {
        i -= 1;
        buf[i] = (48 + x % 10) as u8;
        x = x / 10;
    }
    i -= 1;
    buf[i] = (48 + x) as u8;
    i
}

// The number and the byte behind it.
pub(crate) fn store_number(n: u64, behind: u8, buf: &mut [u8], end: usize) -> usize
    requires { (length (decimal n) + 1 ≤ end) × (end ≤ length buf.old) }
    ensures { (result + (length (decimal n) + 1) ≡ end) × (buf.new ≡ patch result (decimal n ++ (behind ∷ [])) buf.old) }
{
    buf[end - 1] = behind;
    store_digits(n, buf, end - 1)
}
