//! What a call gives, and how its table or its exact value makes that.

ghost use Rattle.std.specs.Prelude.{◌≡◌};
ghost use Rattle.bench.specs.Tables.{answered, nan as nan_of, rounded_answer, special_answer};
ghost use Rattle.bench.specs.Values.{exact_rounded};

use crate::flags::Flags;
use registers::{Datum, Pattern, Rounded};

/// What a call gives: the pattern of its result and the flags that it raises.
#[derive(Clone, Copy, PartialEq, Eq, Debug)]
pub(crate) struct Answer {
    pub(crate) pattern: Pattern,
    pub(crate) flags: Flags,
}

/// What special operands make of a call, in place of a value to round.
#[derive(Clone, Copy, PartialEq, Eq, Debug)]
pub(crate) enum Special {
    /// An invalid operation: a NaN.
    Invalid,
    /// A quiet NaN among the operands: a NaN.
    Quiet,
    /// A result that is exact.
    Given(Pattern),
    /// A number other than zero by zero: an infinity.
    ByZero(Pattern),
}

/// Every NaN that is given out.
fn nan() -> Pattern
    ensures { result ≡ nan_of }
{
    Datum::Nan { quiet: true }.encode()
}

/// A pattern as a rounded value that is exact.
pub(crate) fn exact_rounding(pattern: Pattern) -> Rounded
    ensures { result ≡ exact_rounded pattern }
{
    Rounded {
        pattern,
        inexact: false,
        overflow: false,
        underflow: false,
    }
}

impl Answer {
    /// The answer where a row of a table decides; `subnormal` says whether an operand is subnormal.
    fn of_special(subnormal: bool, special: Special) -> Answer
        ensures { result ≡ special_answer subnormal special }
    {
        match special {
            Special::Invalid => Answer {
                pattern: nan(),
                flags: Flags {
                    invalid: true,
                    ..Flags::default()
                },
            },
            Special::Quiet => Answer {
                pattern: nan(),
                flags: Flags::default(),
            },
            Special::Given(pattern) => Answer {
                pattern,
                flags: Flags {
                    denormal: subnormal,
                    ..Flags::default()
                },
            },
            Special::ByZero(pattern) => Answer {
                pattern,
                flags: Flags {
                    zero_divide: true,
                    denormal: subnormal,
                    ..Flags::default()
                },
            },
        }
    }

    /// The answer where no row decides: the exact value, rounded.
    fn of_rounded(subnormal: bool, value: Rounded) -> Answer
        ensures { result ≡ rounded_answer subnormal value }
    {
        Answer {
            pattern: value.pattern,
            flags: Flags {
                overflow: value.overflow,
                underflow: value.underflow,
                inexact: value.inexact,
                denormal: subnormal,
                ..Flags::default()
            },
        }
    }

    // A match: each variant makes its answer, and two closures would be no plainer.
    /// The answer to a call, from its rounded value or from the row of its table that decides.
    pub(crate) fn new(subnormal: bool, value: Result<Rounded, Special>) -> Answer
        ensures { result ≡ answered subnormal value }
    {
        match value {
            Ok(value) => Answer::of_rounded(subnormal, value),
            Err(special) => Answer::of_special(subnormal, special),
        }
    }
}
