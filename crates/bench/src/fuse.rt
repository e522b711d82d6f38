//! `p·q + r`, rounded once.

ghost use Rattle.std.specs.Prelude.{◌≡◌, ◌*◌, ◌^◌};
ghost use Rattle.registers.specs.Modes.{rounded};
ghost use Rattle.bench.specs.Tables.{fuse_table};
ghost use Rattle.bench.specs.Unless.{unless};
ghost use Rattle.bench.specs.Values.{beside_exact, fuse_sign, fuse_size, zero_sign};

use crate::answer::{Special, exact_rounding};
use crate::kind::{is_negative, signs_differ, zero};
use crate::operand::FinitePattern;
use crate::table::fuse_table;
use registers::{Choice, FusedSum, Mode, Pattern, Rounded};

/// The sign of a sum of zero whose terms have these signs.
fn zero_sign(mode: Mode, s: bool, t: bool) -> bool
    ensures { result ≡ zero_sign mode s t }
{
    if s == t { s } else { mode == Mode::Down }
}

// Operands one by one, here and below: a struct of them would be made once and taken apart once.
/// The exact sum of operands, rounded once.
fn fuse_exact(mode: Mode, p: FinitePattern, q: FinitePattern, r: FinitePattern) -> Rounded
    ensures { result ≡ rounded mode (fuse_sign mode p.pattern q.pattern r.pattern) (beside_exact (fuse_size p.pattern q.pattern r.pattern * 2 ^ 26)) }
{
    let sum = FusedSum {
        r: r.register(),
        choice: Choice::Plus,
        p: p.register(),
        q: q.register(),
    };
    // A match: a zero takes two steps, and a closure of them would be no plainer.
    match sum.round(mode) {
        Some(value) => value,
        None => {
            let product = signs_differ(p.pattern, q.pattern);
            exact_rounding(zero(zero_sign(mode, is_negative(r.pattern), product)))
        }
    }
}

/// The value of `p·q + r`, rounded in a mode, or what its table makes of special operands.
pub(crate) fn fuse_value(mode: Mode, p: Pattern, q: Pattern, r: Pattern) -> Result<Rounded, Special>
    ensures { result ≡ unless (fuse_table p q r) (rounded mode (fuse_sign mode p q r) (beside_exact (fuse_size p q r * 2 ^ 26))) }
{
    fuse_table(p, q, r)?;
    Ok(fuse_exact(
        mode,
        FinitePattern::new(p),
        FinitePattern::new(q),
        FinitePattern::new(r),
    ))
}
