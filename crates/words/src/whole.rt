//! Whole numbers in base ten.

ghost use Rattle.std.specs.Prelude.{◌≡◌};
ghost use Rattle.words.specs.Decimal.{negative_of, positive_of, signed_of, whole_of};

use crate::digits::number;

/// The unsigned number that digits write; nothing where there is none, another byte, or where it does not fit 32 bits.
#[tactic(auto, using(crate::proofs::Same::ten_same))]
pub fn unsigned(word: &[u8]) -> Option<u32>
    ensures { result ≡ whole_of word.now }
{
    if word.is_empty() {
        return None;
    }
    number::<10>(word)
}

/// The signed number that digits after an optional minus write; nothing where it does not fit signed 32 bits.
pub fn signed(word: &[u8]) -> Option<i32>
    ensures { result ≡ signed_of word.now }
{
    match word.strip_prefix(b"-") {
        Some(digits) => i32::try_from(-i64::from(unsigned(digits)?)).ok(),
        None => i32::try_from(unsigned(word)?).ok(),
    }
}
