//! Whole numbers counted: the quotient cut toward zero and the remainder.

ghost use Rattle.std.specs.Prelude.{◌≡◌, ◌*◌, ◌/◌, ◌%◌, ◌^◌, ◌<◌, None, Some, MatchResult, false};
ghost use Rattle.registers.specs.declared.mode.Mode.TheVariants.{TowardZero as TowardZeroCase};
ghost use Rattle.registers.specs.Binary32.{beside_whole};
ghost use Rattle.registers.specs.Modes.{rounded};
ghost use Rattle.sheets.specs.Closed.{closing_size};
ghost use Rattle.sheets.specs.Operands.{units_of};
ghost use Rattle.sheets.specs.Written.{values};
ghost use Rattle.bench.specs.Benches.{KeptIfRefused};
ghost use Rattle.bench.specs.Counts.{count_answer, count_refusal};
ghost use Rattle.bench.specs.Desks.{SheetAlone};
ghost use Rattle.bench.specs.Kinds.{units};
ghost use Rattle.bench.specs.Worksheets.{CountCloses, CountLeaves, CountLines};

use crate::desk::Desk;
use crate::operand::FinitePattern;
use crate::refusal::Refusal;
use crate::whole::{NonzeroMagnitude, WholeMagnitude};
use registers::{Finite, Mode, Rounded};
use sheets::{Closing, fill_quotient};
use sources::Source;

/// A quotient cut toward zero, and the remainder, which has the dividend's sign.
#[derive(Clone, Copy, PartialEq, Eq, Debug)]
pub struct Counted {
    pub quotient: i32,
    pub remainder: i32,
}

/// The whole part of a number.
fn whole_part(x: Finite) -> u32
    requires { units_of x < 2 ^ 24 * 2 ^ 149 }
    ensures { result ≡ units_of x / 2 ^ 149 }
{
    let shift = 149 - x.exponent();
    if shift < 24 {
        x.significand() >> shift
    } else {
        0
    }
}

/// The whole part of an operand's magnitude.
fn cut(p: FinitePattern) -> u32
    requires { units p.pattern < 2 ^ 24 * 2 ^ 149 }
    ensures { result ≡ units p.pattern / 2 ^ 149 }
{
    p.number().map_or(0, whole_part)
}

/// A closing value rounded toward zero.
fn toward_zero(closing: Closing) -> Rounded
    ensures { result ≡ rounded TowardZeroCase false (beside_whole (closing_size closing)) }
{
    closing.round(false, Mode::TowardZero)
}

/// What a quotient leaves of a dividend.
fn rest_of(m: WholeMagnitude, n: NonzeroMagnitude, quotient: u32) -> u32
    requires { quotient ≡ m.value / n.value }
    ensures { result ≡ m.value % n.value }
{
    m.value - quotient * n.value
}

// A dividend and a divisor, one by one, here and below: a struct of them would be made once and taken apart once.
/// A dividend and a divisor of these magnitudes. Refused where one is out of range, and else where the divisor is zero.
fn admit(m: u32, n: u32) -> Result<(WholeMagnitude, NonzeroMagnitude), Refusal>
    ensures { MatchResult result (λ p. (None ≡ count_refusal m n) × (p.0.value ≡ m) × (p.1.value ≡ n)) (λ e. Some e ≡ count_refusal m n) }
{
    let dividend = WholeMagnitude::within(u64::from(m)).ok_or(Refusal::Beyond)?;
    let divisor = WholeMagnitude::within(u64::from(n)).ok_or(Refusal::Beyond)?;
    Ok((dividend, divisor.nonzero().ok_or(Refusal::ZeroDivisor)?))
}

impl<S: Source> Desk<S> {
    /// The quotient of magnitudes other than zero, from their sheet.
    fn whole_quotient(&mut self, m: NonzeroMagnitude, n: NonzeroMagnitude) -> u32
        ensures value { result ≡ m.value / n.value }
        ensures sheet { CountCloses (S.Source.reciprocals self.old.source) m.value n.value (values self.new.sheet) result }
        ensures kept { SheetAlone self.old self.new }
    {
        let closing = fill_quotient(&self.source, m.number(), n.number(), &mut self.sheet);
        cut(FinitePattern::new(toward_zero(closing).pattern))
    }

    /// The quotient of magnitudes. A dividend of zero leaves no line.
    fn count_magnitudes(&mut self, m: WholeMagnitude, n: NonzeroMagnitude) -> u32
        ensures value { result ≡ m.value / n.value }
        ensures sheet { CountLines (S.Source.reciprocals self.old.source) m.value n.value (values self.new.sheet) result }
        ensures kept { SheetAlone self.old self.new }
    {
        let Some(m) = m.nonzero() else {
            self.sheet.clear();
            return 0;
        };
        self.whole_quotient(m, n)
    }

    /// What the count of `a` by `b` answers, and the sheet that it leaves.
    pub(crate) fn count(&mut self, a: i32, b: i32) -> Result<Counted, Refusal>
        ensures answer { result ≡ count_answer a b }
        ensures after { SheetAlone self.old self.new }
        ensures sheet { CountLeaves (S.Source.reciprocals self.old.source) a b self.old.sheet self.new.sheet result }
        ensures kept { KeptIfRefused result self.old self.new }
    {
        let (m, n) = admit(a.unsigned_abs(), b.unsigned_abs())?;
        let whole = self.count_magnitudes(m, n);
        let rest = rest_of(m, n, whole);
        Ok(Counted {
            quotient: WholeMagnitude::new(whole).signed(a.is_negative() != b.is_negative()),
            remainder: WholeMagnitude::new(rest).signed(a.is_negative()),
        })
    }
}
