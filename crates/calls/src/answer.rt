//! What a bench answers to a call, and what it shows after one.

use bench::{Bench, Counted, Flags, Refusal};
use registers::{Mode, Pattern, Register};
use sources::Source;
use std::fmt;

/// The answer to a line of a call list.
#[derive(Clone, Copy, PartialEq, Eq, Debug)]
pub enum Answer {
    /// A call that gives nothing is done.
    Done,
    Pattern(Pattern),
    Counted(Counted),
    Register(Register),
    /// There is no last line.
    NoLine,
    Refused(Refusal),
    /// The line is no call.
    NoCall,
}

/// The mode, the flags and the number of lines that stand.
#[derive(Clone, Copy, PartialEq, Eq, Debug)]
pub struct State {
    mode: Mode,
    flags: Flags,
    lines: usize,
}

impl<S: Source> From<&Bench<S>> for State {
    fn from(bench: &Bench<S>) -> State {
        State {
            mode: bench.mode(),
            flags: bench.flags(),
            lines: bench.lines(),
        }
    }
}

impl fmt::Display for Answer {
    fn fmt<W: fmt::Write>(&self, f: &mut fmt::Formatter<W>) -> fmt::Result {
        match self {
            Answer::Done => write!(f, "ok"),
            Answer::Pattern(p) => write!(f, "{p}"),
            Answer::Counted(c) => write!(f, "{} {}", c.quotient, c.remainder),
            Answer::Register(x) => write!(f, "{x}"),
            Answer::NoLine => write!(f, "none"),
            Answer::Refused(e) => write!(f, "{e}"),
            Answer::NoCall => write!(f, "!"),
        }
    }
}

impl fmt::Display for State {
    fn fmt<W: fmt::Write>(&self, f: &mut fmt::Formatter<W>) -> fmt::Result {
        write!(f, "{} {} {}", u32::from(self.mode), self.flags, self.lines)
    }
}
