// Reads input records from standard input and prints the plan of every group in a table, or `refused N`, and then its sentence on standard
// error. What is printed is `plan_bytes` of the input (`plan_table`); here bytes are only read and written.
#![tactic(auto)]

ghost use Rattle.std.specs.Prelude.{length};
ghost use Rattle.plan_table.specs.Filling.{table_begun, Printing};

use plan_print::Printed;
use program_calls::{STDERR_FILENO, STDOUT_FILENO, say_failed, word_count};
use std::io::Write;

// Prints what the input asks for.
fn answer<W: Write>(out: &mut W, input: &[u8], buf: &mut [u8]) -> Printed
    ensures { Printing (length buf.old) (table_begun input.now) result.table result.written }
{
    let t = plan_table::begin(input);
    plan_print::print(out, t, buf)
}

fn usage(fd: i32) {
    io::write_all(fd, b"usage: planlist < INPUT\n");
    io::write_all(
        fd,
        b"Prints the plan of every group of the disk that the input records ask for, or a refusal's number.\n",
    );
}

// Whether the first argument is this word.
fn is_word(rt: &HostRuntime, word: &[u8]) -> bool {
    program_calls::is_word(rt, 1, word)
}

fn plan(rt: &HostRuntime) {
    let mut input = request::input_buffer();
    let mut buf = io::large_buffer();
    let i = input_bytes::read_input(&mut rt.stdin(), &mut input);
    if i.failed.is_some() {
        say_failed(b"standard input", i.failed);
        return;
    }
    let n = i.n;
    let p = answer(&mut rt.stdout(), &input[..n], &mut buf);
    if !p.written {
        say_failed(b"standard output", p.error);
        return;
    }
    refusal_print::say_refusal(p.table.number);
}

fn main(rt: HostRuntime) {
    if is_word(&rt, b"--help") {
        usage(STDOUT_FILENO);
        return;
    }
    if word_count(&rt) != 1 {
        usage(STDERR_FILENO);
        return;
    }
    plan(&rt);
}
