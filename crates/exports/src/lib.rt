//! The library's functions as C calls them, for tests beside other implementations.

#![tactic(auto)]

mod calls;

use registers::{Choice, Datum, FusedSum, Mode, Number, Pattern, Refusal, Register, Rounded};

// Numbers for kinds and answers, and the parts of a number one by one: the C interface has no Option, Result, enum or struct of ours.

/// In an answer: the value is zero.
const ZERO: u64 = 1 << 62;

/// In an answer: the arguments are not what the function takes.
const UNFIT: u64 = 1 << 63;

/// The register number of a finite pattern.
fn register(bits: u32) -> Option<Register> {
    match Pattern::from_bits(bits).decode() {
        Datum::Finite(x) => Some(Register::from(x)),
        Datum::Zero { negative: _ } => Some(Register::Zero),
        _ => None,
    }
}

// A number for a choice: C hands on no enum of ours.
/// The choice of a number: minus where it is not 0.
fn choice(minus: u32) -> Choice {
    if minus == 0 {
        Choice::Plus
    } else {
        Choice::Minus
    }
}

/// A rounded value: the pattern in the low 32 bits, then inexact, overflow, underflow.
fn packed_rounded(z: Rounded) -> u64 {
    u64::from(z.pattern.bits())
        | u64::from(z.inexact) << 32
        | u64::from(z.overflow) << 33
        | u64::from(z.underflow) << 34
}

/// The rounded sum of patterns, or nothing where one is not finite or no mode has the number.
fn rounded_sum(r: u32, minus: u32, p: u32, q: u32, mode: u32) -> Option<u64> {
    let sum = FusedSum {
        r: register(r)?,
        choice: choice(minus),
        p: register(p)?,
        q: register(q)?,
    };
    let mode = Mode::try_from(mode).ok()?;
    Some(sum.round(mode).map_or(ZERO, packed_rounded))
}

/// `r + p·q`, or `r - p·q` where `minus` is not 0, of finite patterns, rounded in a mode: the pattern in the low 32 bits, then inexact, overflow, underflow.
#[unsafe(no_mangle)]
pub extern "C" fn registers_round(r: u32, minus: u32, p: u32, q: u32, mode: u32) -> u64 {
    rounded_sum(r, minus, p, q, mode).unwrap_or(UNFIT)
}

/// A register number by its parts: a significand of 0 is zero.
fn number(negative: u32, exponent: i32, significand: u32) -> Option<Register> {
    if significand == 0 {
        return Some(Register::Zero);
    }
    Number::new(negative != 0, exponent, significand).map(Register::Nonzero)
}

/// A register number: the significand in the low 32 bits, the exponent and 2^20 above it, the sign.
fn packed_number(x: Register) -> u64 {
    match x {
        Register::Zero => ZERO,
        Register::Nonzero(n) => {
            let exponent = i64::from(n.exponent()) + 1_048_576;
            u64::from(n.significand()) | (exponent as u64) << 32 | u64::from(n.is_negative()) << 55
        }
    }
}

/// A step's answer: a register number, or a refusal's number from bit 56 up.
fn packed(z: Result<Register, Refusal>) -> u64 {
    match z {
        Ok(x) => packed_number(x),
        Err(e) => u64::from(u32::from(e)) << 56,
    }
}

// An Option for each operand, as its parts came from C one by one.
/// The packed step, or nothing where the parts of a number are out of range.
fn step(
    r: Option<Register>,
    minus: u32,
    p: Option<Register>,
    q: Option<Register>,
    width: u32,
) -> Option<u64> {
    let sum = FusedSum {
        r: r?,
        choice: choice(minus),
        p: p?,
        q: q?,
    };
    Some(packed(sum.step(width)))
}

// Eleven numbers, and no struct: C calls it so.
/// The fused step on register numbers by their parts.
#[unsafe(no_mangle)]
pub extern "C" fn registers_step(
    r_negative: u32,
    r_exponent: i32,
    r_significand: u32,
    minus: u32,
    p_negative: u32,
    p_exponent: i32,
    p_significand: u32,
    q_negative: u32,
    q_exponent: i32,
    q_significand: u32,
    width: u32,
) -> u64 {
    let r = number(r_negative, r_exponent, r_significand);
    let p = number(p_negative, p_exponent, p_significand);
    let q = number(q_negative, q_exponent, q_significand);
    step(r, minus, p, q, width).unwrap_or(UNFIT)
}
