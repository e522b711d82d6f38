//! Patterns written as eight hexadecimal digits.

ghost use Rattle.std.specs.Prelude.{◌≡◌};
ghost use Rattle.words.specs.Hexadecimal.{bits_of, hex_of};

use crate::digits::number;
use registers::Pattern;

/// The pattern that a word of eight hexadecimal digits writes, and none for any other word.
#[tactic(auto, using(crate::proofs::Same::sixteen_same))]
pub fn pattern(word: &[u8]) -> Option<Pattern>
    ensures { bits_of result ≡ hex_of word.now }
{
    if word.len() != 8 {
        return None;
    }
    number::<16>(word).map(Pattern::from_bits)
}
