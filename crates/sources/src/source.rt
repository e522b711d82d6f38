//! What a source of seeds is.

ghost use Rattle.std.specs.Prelude.{◌≡◌, ℕ};
ghost use Rattle.registers.specs.Values.{number_value};
ghost use Rattle.sources.specs.Seeds.{IsRadicand, IsSignificand, ReciprocalSeed, RootSeed, plain};

use crate::operand::{Radicand, Significand};
use registers::Number;

/// Two lists of seeds, one for each significand and one for each radicand, every entry of which is close.
// Two questions by name, and no question as a parameter of the trait: the two lists would have one name then, and each clause would tell them apart by the number of a bound, or by the bound written out, where it says `reciprocals` and `roots` now.
pub trait Source {
    /// The reciprocal seed for a significand, and the root seed for a radicand, in units.
    ghost reciprocals: { Self → ℕ → ℕ };

    ghost roots: { Self → ℕ → ℕ };

    /// The reciprocal seed for a significand.
    fn reciprocal(&self, b: Significand) -> Number
        ensures { number_value result ≡ plain (reciprocals self.now b.bits) };

    /// The root seed for a radicand.
    fn root(&self, t: Radicand) -> Number
        ensures { number_value result ≡ plain (roots self.now t.bits) };

    ghost reciprocals_close: { (s : Self) (b : ℕ) → IsSignificand b → ReciprocalSeed 400 b (reciprocals s b) };

    ghost roots_close: { (s : Self) (t : ℕ) → IsRadicand t → RootSeed 400 t (roots s t) };
}
