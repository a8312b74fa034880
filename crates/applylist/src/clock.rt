// A line of progress on standard error, where that is a terminal and the list takes longer than a second.
use program_calls::STDERR_FILENO;
use std::io::IsTerminal;
use std::time;

// Whether lines are shown, whether one was, and the second of the start or of the last one.
#[derive(Clone, Copy)]
pub(crate) struct Clock {
    terminal: bool,
    shown: bool,
    last: u64,
}

// The system's clock, in seconds; 0 where it can't be read.
fn now<C: time::Clock>(rt: &C) -> u64 {
    match rt.since_1970() {
        Ok(t) => t.as_secs(),
        Err(_) => 0,
    }
}

pub(crate) fn start(rt: &HostRuntime) -> Clock {
    Clock {
        terminal: rt.stderr().is_terminal(),
        shown: false,
        last: now(rt),
    }
}

// Writes the record in hand over the line before.
fn say(record: u64) {
    io::write_all(STDERR_FILENO, b"\rrecord ");
    io::print_decimal(STDERR_FILENO, record);
}

impl Clock {
    // Shows the record in hand, a second after the last line at the earliest.
    pub(crate) fn show<C: time::Clock>(self, rt: &C, record: u64) -> Clock {
        if !self.terminal {
            return self;
        }
        let t = now(rt);
        if t <= self.last.wrapping_add(1) {
            return self;
        }
        say(record);
        Clock {
            terminal: true,
            shown: true,
            last: t,
        }
    }

    // Ends the line, if there is one.
    pub(crate) fn end(self) {
        if self.shown {
            io::write_all(STDERR_FILENO, b"\n");
        }
    }
}
