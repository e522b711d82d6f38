//! What the program is asked for.

ghost use Rattle.std.specs.Prelude.{◌≡◌, false, pos, IfOk, Some};
ghost use Rattle.registers.specs.Coding.{finite_meaning, meaning};
ghost use Rattle.registers.specs.Values.{Built};
ghost use Rattle.words.specs.Hexadecimal.{hex_of};

use crate::page::{Pages, refinement_page};
use crate::refine::{Constants, refine};
use crate::trouble::Trouble;
use registers::{Datum, Finite, Number, Pattern, Register};
use sources::Delivered;
use std::alloc::Global;
use words::hex::pattern;

/// A positive finite number other than zero whose reciprocal is refined.
#[derive(Clone, Copy)]
pub struct Refinement {
    pub pattern: Pattern,
    /// The number.
    pub number: Number,
    /// Its significand as a number from 1 up to 2.
    pub significand: Number,
    /// The power of two that the reciprocal of the significand is to be multiplied by.
    pub power: Number,
}

impl Refinement {
    /// The refinement of a positive number.
    fn new(pattern: Pattern, number: Number) -> Result<Refinement, Trouble>
        ensures { IfOk result (λ q. (q.pattern ≡ pattern) × (q.number ≡ number) × Built false (pos 0) number.significand q.significand) }
    {
        Ok(Refinement {
            pattern,
            number,
            significand: Number::new(false, 0, number.significand()).ok_or(Trouble::Range)?,
            power: Number::new(false, -number.exponent(), 0x2000_0000).ok_or(Trouble::Range)?,
        })
    }
}

/// The pattern that a word writes.
fn pattern_of(word: &str) -> Result<Pattern, Trouble>
    ensures { IfOk result (λ p. Some p.bits ≡ hex_of word.now) }
{
    pattern(word.as_bytes()).ok_or(Trouble::NotAPattern)
}

/// The finite number other than zero of a pattern.
fn operand(p: Pattern) -> Result<Finite, Trouble>
    ensures { IfOk result (λ x. finite_meaning x ≡ meaning p.bits) }
{
    match p.decode() {
        Datum::Nan { .. } => Err(Trouble::Nan),
        Datum::Infinity { .. } => Err(Trouble::Infinite),
        Datum::Zero { .. } => Err(Trouble::Zero),
        Datum::Finite(x) => Ok(x),
    }
}

/// The finite number other than zero of a pattern, where it is above zero.
fn positive_operand(p: Pattern) -> Result<Finite, Trouble>
    ensures { IfOk result (λ x. finite_meaning x ≡ meaning p.bits) }
{
    let x = operand(p)?;
    if x.is_negative() {
        return Err(Trouble::Negative);
    }
    Ok(x)
}

/// The page of a refinement.
fn refined(heap: Global, p: Pattern) -> Result<String, Trouble> {
    let request = Refinement::new(p, Number::from(positive_operand(p)?))?;
    let lines = refine(Constants::new(), Register::Nonzero(request.significand))?;
    Ok(refinement_page(heap, &request, &lines)?)
}

/// The sheet of a quotient over a source.
fn quotient(pages: Pages, a: Pattern, b: Pattern) -> Result<String, Trouble> {
    Ok(pages.quotient(operand(a)?, operand(b)?)?)
}

/// The sheet of a root over a source.
fn root(pages: Pages, a: Pattern) -> Result<String, Trouble> {
    Ok(pages.root(positive_operand(a)?)?)
}

/// One by three over both sources.
fn both(heap: Global) -> Result<String, Trouble> {
    let one = Pattern::from_bits(0x3F80_0000);
    let three = Pattern::from_bits(0x4040_0000);
    let table = Pages {
        heap,
        source: Delivered::Table,
    };
    let line = Pages {
        heap,
        source: Delivered::Line,
    };
    let first = quotient(table, one, three)?;
    let second = quotient(line, one, three)?;
    Ok(format!(in heap; "{first}\n{second}")?)
}

/// The page that the words ask for.
pub fn answer(heap: Global, words: &[String]) -> Result<String, Trouble> {
    match words {
        [] => both(heap),
        [word] => refined(heap, pattern_of(word)?),
        [source, sheet, operands @ ..] => {
            let source = source.as_str().parse::<Delivered>()?;
            let pages = Pages { heap, source };
            match (sheet.as_str(), operands) {
                ("quotient", [a, b]) => quotient(pages, pattern_of(a)?, pattern_of(b)?),
                ("root", [a]) => root(pages, pattern_of(a)?),
                ("quotient" | "root", _) => Err(Trouble::Words),
                _ => Err(Trouble::Sheet),
            }
        }
    }
}
