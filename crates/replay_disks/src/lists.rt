// What writelist sends of an input.
ghost use Rattle.std.specs.Prelude.{◌≡◌, length};

use program_calls::STDOUT_FILENO;
use replay_frames::Form;
use run::Run;

// What was written of a list: a number, its bytes, and the checksum's register.
#[derive(Clone, Copy)]
struct Sum {
    number: u32,
    length: u64,
    register: u32,
}

// Room for the longest piece: a head of 10 blocks of 16,384 bytes, each with the 18 bytes before it.
fn chunk_buffer() -> [u8; 164020]
    ensures { 164020 ≡ length result }
{
    [0; 164020]
}

// Room for the longest part: a head of 10 blocks of 16,384 bytes.
fn work_room() -> [u8; 163840]
    ensures { 163840 ≡ length result }
{
    [0; 163840]
}

// Piece k in a buffer of its length, added to what was written.
fn add_chunk(run: Run, device: u64, k: u64, whole: bool, s: Sum, part: &mut [u8]) -> Sum {
    let mut work = work_room();
    let number = list_write::write_piece(run, device, k, &mut work, part);
    if whole {
        io::write_all(STDOUT_FILENO, part);
    }
    Sum {
        number,
        length: s.length.wrapping_add(part.len() as u64),
        register: crc_loops::update(s.register, part),
    }
}

// The next piece; a piece that has no room is refused.
fn next_chunk(run: Run, device: u64, k: u64, whole: bool, s: Sum, buf: &mut [u8]) -> Sum {
    let length = list_lengths::piece_length(run, k);
    let n = length.value as usize;
    if n <= buf.len() {
        return add_chunk(run, device, k, whole, s, &mut buf[0..n]);
    }
    Sum {
        number: refusals::WRONG_LENGTH,
        length: 0,
        register: 0,
    }
}

// All pieces, or those before the first that is refused.
fn all_chunks(run: Run, device: u64, whole: bool, buf: &mut [u8]) -> Sum {
    let count = list_lengths::piece_count(run);
    let mut s = Sum {
        number: 0,
        length: 0,
        register: 0xffff_ffff,
    };
    for k in 0..count.value {
        if s.number != 0 {
            break;
        }
        s = next_chunk(run, device, k, whole, s, buf);
    }
    s
}

fn print_sum(s: Sum) {
    io::print_decimal(STDOUT_FILENO, s.number as u64);
    io::write_all(STDOUT_FILENO, b" ");
    io::print_decimal(STDOUT_FILENO, s.length);
    io::write_all(STDOUT_FILENO, b" ");
    io::print_hex(STDOUT_FILENO, (!s.register) as u64, 8);
    io::write_all(STDOUT_FILENO, b"\n");
}

// The list itself, without a frame, or a line with its number, length and checksum. Of a refused input the number alone is said.
pub(crate) fn list(form: Form, records: &[u8]) {
    let r = request::parse(records);
    let run = run::run_of(r);
    if run.number != 0 {
        replay_frames::say(form, run.number, 0, b"");
        return;
    }
    let whole = form == Form::Whole;
    let mut buf = chunk_buffer();
    let s = all_chunks(run, r.device, whole, &mut buf);
    if !whole {
        print_sum(s);
    }
}
