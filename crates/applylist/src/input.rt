// The list, as it is read.
ghost use Rattle.std.specs.Prelude.{◌≤◌, IfOk, length};

use std::io::{Read, Result};

// Reads behind the first `n` bytes until there are `want` or the input ends, and says how many there are; where the buffer is too short,
// nothing is read.
pub(crate) fn fill_wanted<R: Read>(
    list: &mut R,
    n: usize,
    want: usize,
    buf: &mut [u8],
) -> Result<usize>
    ensures { IfOk result (λ end. end ≤ length buf.new) }
{
    if want < n || buf.len() < want {
        return Ok(0);
    }
    let i = input_bytes::read_input(list, &mut buf[n..want]);
    match i.failed {
        Some(error) => Err(error),
        None => Ok(n + i.n),
    }
}
