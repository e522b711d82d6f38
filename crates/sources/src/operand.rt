//! The operands of a source's two questions.

ghost use Rattle.std.specs.Prelude.{◌≡◌, ◌↔◌, ◌≤◌, ◌<◌, ◌^◌, ℕ, IsTrue, MatchOption, ⊤};
ghost use Rattle.sources.specs.Seeds.{IsRadicand, IsSignificand};
ghost use Rattle.sources.specs.Served.{radicand_few, radicand_one_proof, significand_few, significand_one_proof};

use std::alloc::AllocError;
use std::marker::PhantomData;

/// A question that a source of seeds answers.
pub trait Question {
    /// The numbers that it is asked for.
    ghost Serves: { ℕ → Type 0 };

    /// That a number is one of them has one proof at most, so that a type can keep it.
    ghost one_proof: { (n : ℕ) → IsProp (Serves n) };

    /// Whether it is asked for the number with these bits.
    fn serves(bits: u32) -> bool
        ensures { IsTrue result ↔ Serves bits };

    /// None of these numbers is zero, and all are short.
    ghost few: { (n : ℕ) → Serves n → (0 < n) × (n < 2 ^ 25) };
}

/// The question for a reciprocal: its operands are the 24-bit significands `B` of the numbers `b' = B / 2^23`, from 1 up to 2.
#[derive(Clone, Copy, PartialEq, Eq, Debug)]
pub struct Reciprocal;

impl Question for Reciprocal {
    ghost Serves = { IsSignificand };

    ghost one_proof = { significand_one_proof };

    ghost few = { significand_few };

    fn serves(bits: u32) -> bool {
        (0x80_0000..0x100_0000).contains(&bits)
    }
}

/// The question for a reciprocal root: its operands are the numbers `T` of `t = T / 2^23`, from 1 up to 4, even where `t` is 2 or more.
#[derive(Clone, Copy, PartialEq, Eq, Debug)]
pub struct Root;

impl Question for Root {
    ghost Serves = { IsRadicand };

    ghost one_proof = { radicand_one_proof };

    ghost few = { radicand_few };

    fn serves(bits: u32) -> bool {
        (0x80_0000..0x200_0000).contains(&bits) && (bits < 0x100_0000 || bits % 2 == 0)
    }
}

/// A number that a question is asked for.
#[derive_where(PartialEq, Eq, Debug)]
pub struct Operand<Q: Question> {
    bits: u32,
    question: PhantomData<Q>,
    ghost range: { Q.Serves bits } by { Q.one_proof bits },
}

// Copied by an impl, and by no derive: none copies a generic struct that keeps a fact.
impl<Q: Question> Copy for Operand<Q> {}

impl<Q: Question> Clone for Operand<Q> {
    ghost is_clone = { λ x y. y ≡ x };

    ghost is_infallible = { λ _. ⊤ };

    fn clone(&self) -> Result<Self, AllocError> {
        Ok(*self)
    }
}

/// The 24-bit significand `B` of a number `b' = B / 2^23`, from 1 up to 2.
pub type Significand = Operand<Reciprocal>;

/// The number `T` of a root's operand `t = T / 2^23`, from 1 up to 4; it is even where `t` is 2 or more.
pub type Radicand = Operand<Root>;

impl<Q: Question> Operand<Q> {
    /// The operand with these bits, or nothing where the question is not asked for them.
    pub fn new(bits: u32) -> Option<Operand<Q>>
        ensures { MatchOption result (Q.Serves bits → ⊥) (λ s. s.bits ≡ bits) }
    {
        if !Q::serves(bits) {
            return None;
        }
        Some(Operand {
            bits,
            question: PhantomData,
        })
    }

    /// Its bits.
    pub fn bits(self) -> u32
        ensures { result ≡ self.bits }
    {
        self.bits
    }
}
