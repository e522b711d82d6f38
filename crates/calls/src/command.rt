//! One line of a call list.

use registers::Pattern;
use words::hex::pattern;
use words::split::Words;
use words::whole::{signed, unsigned};

/// A call or a question.
#[derive(Clone, Copy, PartialEq, Eq, Debug)]
pub enum Command {
    Mode(u32),
    Clear,
    Fuse(Pattern, Pattern, Pattern),
    Divide(Pattern, Pattern),
    Root(Pattern),
    Remainder(Pattern, Pattern),
    Count(i32, i32),
    Line(u32),
    Last,
}

/// The pattern that the next word writes.
fn next_pattern(words: &mut Words<'_>) -> Option<Pattern> {
    pattern(words.next()?)
}

/// The command that a line writes, or none. What is left of the line is the last operand: one with a blank in it reads as none.
pub fn command_of(line: &[u8]) -> Option<Command> {
    let mut words = Words::new(line);
    match words.next()? {
        b"mode" => Some(Command::Mode(unsigned(words.rest()?)?)),
        b"clear" if words.rest().is_none() => Some(Command::Clear),
        b"fuse" => Some(Command::Fuse(
            next_pattern(&mut words)?,
            next_pattern(&mut words)?,
            pattern(words.rest()?)?,
        )),
        b"divide" => Some(Command::Divide(next_pattern(&mut words)?, pattern(words.rest()?)?)),
        b"root" => Some(Command::Root(pattern(words.rest()?)?)),
        b"remainder" => Some(Command::Remainder(
            next_pattern(&mut words)?,
            pattern(words.rest()?)?,
        )),
        b"count" => Some(Command::Count(signed(words.next()?)?, signed(words.rest()?)?)),
        b"line" => Some(Command::Line(unsigned(words.rest()?)?)),
        b"last" if words.rest().is_none() => Some(Command::Last),
        _ => None,
    }
}
