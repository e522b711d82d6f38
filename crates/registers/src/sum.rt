//! The exact value of a sum of a register number and a product of two.

ghost use Rattle.std.specs.Prelude.{◌≡◌, ◌+◌, ◌-◌, ◌*◌, ◌^◌, ◌<◌, ◌≤◌, true, not};
ghost use Rattle.std.specs.Bool.{beq};
ghost use Rattle.registers.specs.Fused.{fused_sign, fused_size, product_sign};
ghost use Rattle.registers.specs.Held.{Holds, size_of};
ghost use Rattle.registers.specs.Range.{bias};
ghost use Rattle.registers.specs.Sides.{one};
ghost use Rattle.registers.specs.Sums.{sum_sign, sum_size};
ghost use Rattle.registers.specs.Values.{Value, value};

use crate::exact::{Exact, Term};
use crate::fused::FusedSum;
use crate::limits::UNIT;
use crate::register::{Choice, Register};

/// Terms whose exponents are closer than this are added exactly.
const NEAR: u32 = 64;

/// A signed whole number.
// Beside `Term`: it has a greater bound and no exponent, since two such numbers are added at one exponent.
#[derive(Clone, Copy)]
struct Signed {
    negative: bool,
    whole: u128,
    ghost small: { whole < 2 ^ 123 },
}

impl Term {
    /// Its sign and its whole number.
    fn signed(self) -> Signed
        ensures sign { result.negative ≡ self.negative }
        ensures size { result.whole ≡ self.whole }
    {
        Signed {
            negative: self.negative,
            whole: self.whole,
        }
    }
}

/// The sum of two signed whole numbers.
// A pair, and not `Signed`: a sum of two may pass the bound of the type.
fn signed_sum(a: Signed, b: Signed) -> (bool, u128)
    ensures sign { result.0 ≡ sum_sign a.negative a.whole b.negative b.whole }
    ensures size { result.1 ≡ sum_size a.negative a.whole b.negative b.whole }
    ensures small { result.1 < 2 ^ 124 }
{
    if a.negative == b.negative {
        (a.negative, a.whole + b.whole)
    } else if a.whole < b.whole {
        (b.negative, b.whole - a.whole)
    } else {
        (a.negative && b.whole < a.whole, a.whole - b.whole)
    }
}

/// The sum of two signed whole numbers of units of `2^exponent`.
#[tactic(auto, using(crate::proofs::Adding::near_held, crate::proofs::Adding::near_sign))]
fn near(a: Signed, b: Signed, exponent: u32) -> Exact
    requires { exponent < 2 ^ 19 }
    ensures held { Holds result (sum_size a.negative (a.whole * 2 ^ exponent) b.negative (b.whole * 2 ^ exponent)) }
    ensures sign { result.negative ≡ sum_sign a.negative (a.whole * 2 ^ exponent) b.negative (b.whole * 2 ^ exponent) }
{
    let (negative, whole) = signed_sum(a, b);
    Exact {
        negative,
        whole,
        exponent,
        more: false,
    }
}

/// `n · 2^k`.
fn raised(n: u128, k: u32) -> u128
    requires { (n < 2 ^ 60) × (k < 64) }
    ensures { result ≡ n * 2 ^ k }
{
    n << k
}

/// A term to which, or from which where `unlike`, a far smaller one is added: in units of a sixteenth of its own, with a part more.
fn folded(high: Term, unlike: bool) -> Exact
    requires { (0 < high.whole) × (4 ≤ high.exponent) }
    ensures whole { result.whole + one unlike ≡ high.whole * 2 ^ 4 }
    ensures exponent { result.exponent + 4 ≡ high.exponent }
    ensures more { result.more ≡ true }
    ensures sign { result.negative ≡ high.negative }
{
    let sixteenths = raised(high.whole, 4);
    Exact {
        negative: high.negative,
        whole: sixteenths - u128::from(unlike),
        exponent: high.exponent - 4,
        more: true,
    }
}

/// The sum of two terms other than zero, the first of which has the higher exponent.
#[tactic(auto, using(crate::proofs::Adding::far_held, crate::proofs::Adding::raise_parts))]
fn ordered(high: Term, low: Term) -> Exact
    requires { (low.exponent ≤ high.exponent) × ((0 < high.whole) × (0 < low.whole)) }
    ensures held { Holds result (sum_size high.negative (size_of high) low.negative (size_of low)) }
    ensures sign { result.negative ≡ sum_sign high.negative (size_of high) low.negative (size_of low) }
{
    let apart = high.exponent - low.exponent;
    if apart < NEAR {
        let raised_high = Signed {
            negative: high.negative,
            whole: raised(high.whole, apart),
        };
        return near(raised_high, low.signed(), low.exponent);
    }
    folded(high, high.negative != low.negative)
}

/// The sum of two terms.
fn sum(a: Term, b: Term) -> Exact
    ensures held { Holds result (sum_size a.negative (size_of a) b.negative (size_of b)) }
    ensures sign { result.negative ≡ sum_sign a.negative (size_of a) b.negative (size_of b) }
{
    if a.whole == 0 {
        near(a.signed(), b.signed(), b.exponent)
    } else if b.whole == 0 {
        near(a.signed(), b.signed(), a.exponent)
    } else if a.exponent < b.exponent {
        ordered(b, a)
    } else {
        ordered(a, b)
    }
}

/// A register number as a term, in units.
fn term_of(r: Register) -> Term
    ensures size { size_of result ≡ (value r).units }
    ensures sign { result.negative ≡ (value r).negative }
    ensures small { (result.whole < 2 ^ 30) × (result.exponent < 2 ^ 18) }
{
    match r {
        Register::Zero => Term {
            negative: false,
            whole: 0,
            exponent: 0,
        },
        Register::Nonzero(x) => Term {
            negative: x.negative,
            whole: u128::from(x.significand),
            exponent: x.exponent,
        },
    }
}

/// The addend as a term, in squared units.
#[tactic(auto, using(crate::proofs::Scaling::addend_size))]
fn addend(r: Register) -> Term
    ensures size { size_of result ≡ (value r).units * 2 ^ bias }
    ensures sign { result.negative ≡ (value r).negative }
{
    let a = term_of(r);
    Term {
        negative: a.negative,
        whole: a.whole,
        exponent: a.exponent + UNIT,
    }
}

/// The product of two significands, none of whose bits is dropped.
fn whole_product(a: u128, b: u128) -> u128
    requires { (a < 2 ^ 30) × (b < 2 ^ 30) }
    ensures { result ≡ a * b }
{
    a * b
}

/// The sign of a product of two numbers in the sum.
fn product_sign(choice: Choice, p: bool, q: bool) -> bool
    ensures { (x y : Value) → p ≡ x.negative → q ≡ y.negative → result ≡ product_sign choice x y }
{
    match choice {
        Choice::Plus => p != q,
        Choice::Minus => p == q,
    }
}

/// The product as a term with its sign in the sum, in squared units.
#[tactic(auto, using(crate::proofs::Scaling::product_size))]
fn product(choice: Choice, p: Register, q: Register) -> Term
    ensures size { size_of result ≡ (value p).units * (value q).units }
    ensures sign { result.negative ≡ product_sign choice (value p) (value q) }
{
    let a = term_of(p);
    let b = term_of(q);
    Term {
        negative: product_sign(choice, a.negative, b.negative),
        whole: whole_product(a.whole, b.whole),
        exponent: a.exponent + b.exponent,
    }
}

impl FusedSum {
    /// Its exact value, in squared units.
    pub(crate) fn exact(self) -> Exact
        ensures held { Holds result (fused_size self.choice (value self.r) (value self.p) (value self.q)) }
        ensures sign { result.negative ≡ fused_sign self.choice (value self.r) (value self.p) (value self.q) }
    {
        sum(addend(self.r), product(self.choice, self.p, self.q))
    }
}
