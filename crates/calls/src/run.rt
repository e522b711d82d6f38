//! A list of calls run on a bench.

use crate::answer::{Answer, State};
use crate::command::{Command, command_of};
use bench::{Bench, Refusal};
use sources::Source;
use std::alloc::{AllocError, Global};

/// The answer to a command that is not refused.
fn result<S: Source>(bench: &mut Bench<S>, command: Command) -> Result<Answer, Refusal> {
    Ok(match command {
        Command::Mode(n) => {
            bench.set_mode(n)?;
            Answer::Done
        }
        Command::Clear => {
            bench.clear();
            Answer::Done
        }
        Command::Fuse(p, q, r) => Answer::Pattern(bench.fuse(p, q, r)),
        Command::Divide(a, b) => Answer::Pattern(bench.divide(a, b)),
        Command::Root(a) => Answer::Pattern(bench.root(a)),
        Command::Remainder(x, y) => Answer::Pattern(bench.remainder(x, y)),
        Command::Count(a, b) => Answer::Counted(bench.count(a, b)?),
        // A cast, and no `From`: there is none from `u32` to `usize`, and a `TryFrom` could fail.
        Command::Line(n) => Answer::Register(bench.line(n as usize)?),
        Command::Last => bench.last().map_or(Answer::NoLine, Answer::Register),
    })
}

/// The answer to a line.
fn answer<S: Source>(bench: &mut Bench<S>, line: &[u8]) -> Answer {
    command_of(line).map_or(Answer::NoCall, |command| {
        result(bench, command).unwrap_or_else(Answer::Refused)
    })
}

/// The answers to a list, a line for each line of it, with what the bench shows after each.
/// What follows the last end of a line is a line unless it is empty.
pub fn answers<S: Source>(
    heap: Global,
    bench: &mut Bench<S>,
    list: &[u8],
) -> Result<String, AllocError> {
    let mut text = String::new(heap);
    for line in list.split_inclusive(|byte| *byte == b'\n') {
        let answer = answer(bench, line.strip_suffix(b"\n").unwrap_or(line));
        writeln!(text, "{answer} | {}", State::from(&*bench))?;
    }
    Ok(text)
}
