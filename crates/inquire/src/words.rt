// The program's words, and its input.
ghost use Rattle.std.specs.Prelude.{IfOk};
ghost use Rattle.io.specs.Counts.{IsPrefixLen};

use crate::output::Failed;
use program_calls::take_word;
use request_texts::Value;
use std::io::Read;

// What a word says, if it says a number.
fn said(v: Value) -> Result<u64, Failed> {
    if v.number != 0 {
        return Err(Failed::Words);
    }
    Ok(v.value)
}

// What the word of this index says as a decimal number with K, M, G, T, P, E behind it or not.
pub(crate) fn size(rt: &HostRuntime, i: usize) -> Result<u64, Failed> {
    let mut word = io::buffer();
    let n = take_word(rt, i, &mut word);
    said(request_texts::number(&word[..n]))
}

// The same without a letter behind it.
pub(crate) fn number(rt: &HostRuntime, i: usize) -> Result<u64, Failed> {
    let mut word = io::buffer();
    let n = take_word(rt, i, &mut word);
    said(inquire_holds::words::number_alone(&word[..n]))
}

// Reads a stream's records, and says how many bytes they have.
pub(crate) fn read_stream<R: Read>(stream: &mut R, input: &mut [u8]) -> std::io::Result<usize>
    ensures { IfOk result (λ n. IsPrefixLen n input.new) }
{
    let i = input_bytes::read_input(stream, input);
    match i.failed {
        Some(error) => Err(error),
        None => Ok(i.n),
    }
}

// The same of standard input.
pub(crate) fn read_records(rt: &HostRuntime, input: &mut [u8]) -> Result<usize, Failed>
    ensures { IfOk result (λ n. IsPrefixLen n input.new) }
{
    read_stream(&mut rt.stdin(), input).map_err(Failed::Input)
}
