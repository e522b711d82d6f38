//! The table source: a seed is looked up by the first bits of the operand.

mod stored;

ghost use Rattle.std.specs.Prelude.{◌≡◌, ◌+◌, ◌*◌, ◌^◌, ◌<◌, ◌≤◌, ℕ, map};
ghost use Rattle.std.specs.List.{range_with_len};
ghost use Rattle.registers.specs.Values.{number_value};
ghost use Rattle.sources.specs.Entries.{NearestHalfRoot, NearestQuotient, middle, reciprocal_entry, reciprocal_index, root_entry, root_index, table_reciprocal, table_root};
ghost use Rattle.sources.specs.Fractions.{fraction as fraction_of};
ghost use Rattle.sources.specs.Seeds.{plain};
ghost use Rattle.sources.specs.Tabulated.{reciprocal_long, reciprocal_nearest, reciprocals_are_close, root_long, root_nearest, roots_are_close};

use crate::exact::fraction;
use crate::operand::{Operand, Question, Radicand, Reciprocal, Root, Significand};
use crate::source::Source;
use crate::table::stored::{RECIPROCALS, ROOTS};
use registers::Number;

/// A question whose seeds stand in a table of 256 entries.
trait Tabulated: Question {
    /// The entry at each place.
    ghost entry: { ℕ → ℕ };

    /// The place of the entry that serves an operand.
    ghost index: { ℕ → ℕ };

    /// What it is for the entry at a place to be nearest.
    ghost IsNearest: { ℕ → ℕ → Type 0 };

    /// The table.
    fn table() -> &'static [u16; 256]
        ensures { result.now ≡ map entry (range_with_len 0 256) };

    /// The place of the entry that serves the operand with these bits.
    // The bits, and no operand: a trait's method over an operand of its own question gets no proof.
    fn index(bits: u32) -> u8
        requires { Self.Serves bits }
        ensures { result ≡ index bits };

    /// Entries have 11 bits.
    ghost long: { (i : ℕ) → i < 256 → (2 ^ 10 ≤ entry i) × (entry i < 2 ^ 11) };

    /// Entries are nearest.
    ghost nearest: { (i : ℕ) → i < 256 → IsNearest i (entry i) };
}

impl Tabulated for Reciprocal {
    ghost entry = { reciprocal_entry };

    ghost index = { reciprocal_index };

    ghost IsNearest = { λ i e. NearestQuotient (2 ^ 20) (513 + 2 * i) e };

    ghost long = { reciprocal_long };

    ghost nearest = { reciprocal_nearest };

    #[tactic(auto, unfolding(crate::specs::Entries::reciprocal_entry))]
    fn table() -> &'static [u16; 256] {
        &RECIPROCALS
    }

    /// The top eight fraction bits of a significand.
    fn index(bits: u32) -> u8 {
        ((bits - 0x80_0000) >> 15) as u8
    }
}

impl Tabulated for Root {
    ghost entry = { root_entry };

    ghost index = { root_index };

    ghost IsNearest = { λ i e. NearestHalfRoot (2 ^ 32) (middle i) e };

    ghost long = { root_long };

    ghost nearest = { root_nearest };

    #[tactic(auto, unfolding(crate::specs::Entries::root_entry))]
    fn table() -> &'static [u16; 256] {
        &ROOTS
    }

    /// The seven bits of a radicand after its highest one, and 128 more from 2 up.
    fn index(bits: u32) -> u8 {
        if bits < 0x100_0000 {
            ((bits - 0x80_0000) >> 16) as u8
        } else {
            128 + ((bits - 0x100_0000) >> 17) as u8
        }
    }
}

/// An entry of a question's table.
fn entry<Q: Tabulated>(i: u8) -> u16
    ensures value { result ≡ Q.entry i }
    ensures bound { (2 ^ 10 ≤ result) × (result < 2 ^ 11) }
    ensures nearest { Q.IsNearest i (Q.entry i) }
{
    Q::table()[usize::from(i)]
}

/// The seed for an operand: the entry that serves it, times `2^-11`.
fn seed<Q: Tabulated>(operand: Operand<Q>) -> Number
    ensures { number_value result ≡ plain (fraction_of (Q.entry (Q.index operand.bits)) 11) }
{
    fraction(entry::<Q>(Q::index(operand.bits())).into(), 11)
}

/// The source whose seeds stand in two tables of 256 entries.
#[derive(Clone, Copy, PartialEq, Eq, Debug)]
pub struct TableSource;

impl Source for TableSource {
    ghost reciprocals = { λ s b. table_reciprocal b };

    ghost roots = { λ s t. table_root t };

    ghost reciprocals_close = { λ s b h. reciprocals_are_close b h };

    ghost roots_close = { λ s t h. roots_are_close t h };

    fn reciprocal(&self, b: Significand) -> Number {
        seed(b)
    }

    fn root(&self, t: Radicand) -> Number {
        seed(t)
    }
}
