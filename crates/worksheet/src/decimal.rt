//! Register numbers in decimal, to nine places.

ghost use Rattle.std.specs.Prelude.{◌+◌, ◌*◌, ◌^◌, ◌<◌, ◌≤◌};

use registers::{Number, Register};
use std::fmt;

/// A register number with nine decimals.
#[derive(Clone, Copy)]
pub struct Decimal(pub Register);

/// A register number with nine decimals, by a power of two where it is far from 1.
#[derive(Clone, Copy)]
pub struct Scaled(pub Register);

/// `product / 2^shift` rounded to a nearest whole number.
fn nearest_quotient(product: u128, shift: u32) -> u128
    requires { (product < 2 ^ 60) × (shift ≤ 100) }
    ensures low { 2 * product ≤ 2 * (result * 2 ^ shift) + 2 ^ shift }
    ensures high { 2 * (result * 2 ^ shift) ≤ 2 * product + 2 ^ shift }
{
    let half = (1u128 << shift) / 2;
    (product + half) >> shift
}

/// How many units of `10^-9` a number's magnitude has, or nothing where it is `2^30` or more.
fn billionths(x: Number) -> Option<u128> {
    match x.exponent() {
        30.. => None,
        ..-71 => Some(0),
        exponent => {
            let product = u128::from(x.significand()) * 1_000_000_000;
            Some(nearest_quotient(product, exponent.abs_diff(29)))
        }
    }
}

impl fmt::Display for Decimal {
    fn fmt<W: fmt::Write>(&self, f: &mut fmt::Formatter<W>) -> fmt::Result {
        let Register::Nonzero(number) = self.0 else {
            return write!(f, "0.000000000");
        };
        let Some(units) = billionths(number) else {
            return write!(f, "2^30 or more");
        };
        let sign = if number.is_negative() && units > 0 {
            "-"
        } else {
            ""
        };
        let whole = units / 1_000_000_000;
        let part = units % 1_000_000_000;
        write!(f, "{sign}{whole}.{part:09}")
    }
}

/// The number from 1 up to 2 and the power of two that make a number which is far from 1.
fn far(x: Register) -> Option<(Number, i32)> {
    match x {
        Register::Nonzero(number) if !(-9..24).contains(&number.exponent()) => {
            let one = Number::new(number.is_negative(), 0, number.significand())?;
            Some((one, number.exponent()))
        }
        _ => None,
    }
}

impl fmt::Display for Scaled {
    fn fmt<W: fmt::Write>(&self, f: &mut fmt::Formatter<W>) -> fmt::Result {
        match far(self.0) {
            Some((one, exponent)) => {
                write!(f, "{} * 2^{exponent}", Decimal(Register::Nonzero(one)))
            }
            None => write!(f, "{}", Decimal(self.0)),
        }
    }
}
