// Answers questions about disks; the first word says which one. `inquire --help` has them all. A usage error prints nothing on standard
// output. What is answered stands in the libraries that each question names; here bytes are only read and written.
#![tactic(auto)]

mod cabinet; // which disks of a cabinet have lists that fit one area
mod holds; // what holding runs of blocks back and giving them back leaves of a group's free records
mod length; // how much a run sends
mod output; // lines
mod sizes; // whether every device size of a range is formatted
mod smallest; // the smallest device size that leaves so many free blocks
mod words; // the program's words

use output::{Failed, say_why};
use program_calls::{STDOUT_FILENO, take_word};

fn usage(fd: i32) {
    length::usage(fd);
    cabinet::usage(fd);
    holds::usage(fd);
    sizes::usage(fd);
    smallest::usage(fd);
}

// Answers the question that the words ask.
fn answer(rt: &HostRuntime) -> Result<(), Failed> {
    let mut word = io::buffer();
    let n = take_word(rt, 1, &mut word);
    match &word[..n] {
        b"--help" => {
            usage(STDOUT_FILENO);
            Ok(())
        }
        b"length" => length::answer(rt),
        b"cabinet" => cabinet::answer(rt),
        b"holds" => holds::answer(rt),
        b"sizes" => sizes::answer(rt),
        b"smallest" => smallest::answer(rt),
        _ => Err(Failed::Words),
    }
}

fn main(rt: HostRuntime) {
    if let Err(failed) = answer(&rt) {
        say_why(failed);
    }
}
