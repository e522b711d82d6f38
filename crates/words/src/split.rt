//! The words of a line, which single blanks separate.

ghost use Rattle.std.specs.Prelude.{◌≡◌, ℕ, ◌+◌, ◌-◌, ◌<◌, ◌≤◌, length, take, drop, ◌∷◌};
ghost use Rattle.std.specs.Iterator.{YieldsFirstRef, item_count};
ghost use Rattle.words.specs.Blanks.{AfterBlank, FirstBlank, words_after, words_left, words_of};

/// The words of what is left of a line; nothing is left after the word that no blank ends.
// Not std's `split`: what a blank is would stand in the closure that a caller hands it, and in no contract.
#[derive(Drop)]
pub struct Words<'a>(Option<&'a [u8]>);

/// Where the first blank of a line stands, or its length where there is none.
fn blank_at(line: &[u8]) -> usize
    ensures { FirstBlank line.now result }
{
    line.iter()
        .position(|byte| *byte == b' ')
        .unwrap_or(line.len())
}

/// What stands after the blank at a place; nothing where the line ends there.
fn after_blank(line: &[u8], end: usize) -> Option<&[u8]>
    requires { end ≤ length line.now }
    ensures { AfterBlank line.now end result }
{
    line.get(end + 1..)
}

/// The first word of a line, and what stands after the blank that ends it; nothing where no blank does.
#[tactic(auto, using(crate::proofs::Words::words_from_first))]
pub fn first_word(line: &[u8]) -> (&[u8], Option<&[u8]>)
    ensures words { words_of line.now ≡ result.0.now ∷ words_after result.1 }
    ensures places { (n : ℕ) × FirstBlank line.now n × (result.0.now ≡ take n line.now) × AfterBlank line.now n result.1 }
{
    let end = blank_at(line);
    (&line[..end], after_blank(line, end))
}

impl<'a> Words<'a> {
    /// The words of a line: one more than it has blanks, and any of them may be empty.
    pub fn new(line: &'a [u8]) -> Words<'a>
        ensures { words_left result ≡ words_of line.now }
    {
        Words(Some(line))
    }

    /// What is left of the line, with its blanks; nothing after the word that no blank ends.
    pub fn rest(&self) -> Option<&'a [u8]>
        ensures { words_after result ≡ words_left self.now }
    {
        self.0
    }
}

impl<'a> Iterator for Words<'a> {
    type Item = &'a [u8];

    ghost next_gives = { YieldsFirstRef words_left };

    ghost remaining = { item_count words_left };

    fn next(&mut self) -> Option<&'a [u8]> {
        let (word, rest) = first_word(self.0?);
        *self = Words(rest);
        Some(word)
    }
}
