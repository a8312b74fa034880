// Says a refusal in words on standard error, as `refused 21: fewer than 300 MiB`. The sentence is `refusal_sentences`'; here it is only
// written. Standard output is left to the program.
#![tactic(auto)]

use program_calls::STDERR_FILENO;
use refusal_sentences::put_sentence;

// Writes the first `end` bytes, where there are so many.
fn flush(buf: &[u8], end: usize) {
    if let Some(first) = buf.get(..end) {
        io::write_all(STDERR_FILENO, first);
    }
}

// The number and its sentence; nothing of 0, which accepts.
pub fn say_refusal(number: u32) {
    if number == 0 {
        return;
    }
    let mut text = [0u8; 96]; // no sentence is longer
    let w = put_sentence(number, &mut text, 0);
    io::write_all(STDERR_FILENO, b"refused ");
    io::print_decimal(STDERR_FILENO, number as u64);
    io::write_all(STDERR_FILENO, b": ");
    flush(&text, w.end);
    io::write_all(STDERR_FILENO, b"\n");
}
