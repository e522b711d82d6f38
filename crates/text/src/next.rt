//! The lines of a text, one after the other.

ghost use Rattle.std.specs.Prelude.{◌≡◌, ◌≤◌, length};
ghost use Rattle.std.specs.Iterator.{YieldsFirstRef, item_count};
ghost use Rattle.text.specs.Lines.{end, ended, handed, lines_from, lines_left, lines_of, next_of, rejoined, Shorter, until_end};

/// The first line of a text, with its byte 10 where it has one, and what follows it.
#[derive(Clone, Copy)]
pub struct Next<'a> {
    pub line: &'a [u8],
    pub rest: &'a [u8],
}

/// Whether the byte ends a line.
fn is_end(byte: u8) -> bool
    ensures { result ≡ end byte }
{
    byte == b'\n'
}

/// How many bytes stand before the first byte 10, or all of them.
fn until_end(text: &[u8]) -> usize
    ensures value { result ≡ until_end text.now }
    ensures bound { result ≤ length text.now }
{
    text.iter().take_while(|byte| !is_end(**byte)).count()
}

/// Whether the line's first byte 10 is its last byte.
pub(crate) fn is_ended(line: &[u8]) -> bool
    ensures { result ≡ ended line.now }
{
    until_end(line) + 1 == line.len()
}

/// The next line of a text and the text after it, in time linear in the line's length; nothing at the text's end.
#[tactic(auto, using(crate::proofs::Falling::lines_rejoined))]
pub fn next_line(text: &[u8]) -> Option<Next<'_>>
    ensures value { handed result ≡ next_of text.now }
    ensures shorter { Shorter text.now (handed result) }
    ensures lines { lines_of text.now ≡ lines_from (handed result) }
    ensures whole { rejoined (lines_of text.now) ≡ text.now }
{
    if text.is_empty() {
        return None;
    }
    let (line, rest) = text.split_at(text.len().min(until_end(text) + 1));
    Some(Next { line, rest })
}

/// The lines of a text, each with its byte 10 where it has one, from the first to the last.
// Not std's `split_inclusive`: its type names a closure, so no function with a contract over `lines_of` can hand it out.
#[derive(Drop)]
pub struct Lines<'a> {
    pub(crate) rest: &'a [u8],
}

impl<'a> Lines<'a> {
    /// The lines of a text.
    pub fn new(text: &'a [u8]) -> Lines<'a>
        ensures { lines_left result ≡ lines_of text.now }
    {
        Lines { rest: text }
    }
}

impl<'a> Iterator for Lines<'a> {
    type Item = &'a [u8];

    ghost next_gives = { YieldsFirstRef lines_left };

    ghost remaining = { item_count lines_left };

    fn next(&mut self) -> Option<&'a [u8]> {
        let Next { line, rest } = next_line(self.rest)?;
        self.rest = rest;
        Some(line)
    }
}
