//! Seeds of both sources at the ends and in the middle of what they serve, what is not served, and the words for the sources.

use crate::delivered::{Delivered, UnknownSource};
use crate::line::LineSource;
use crate::operand::{Radicand, Significand};
use crate::source::Source;
use crate::table::TableSource;
use registers::Number;
use std::test::Fail;

// Whether a number is negative, its exponent and its significand.
type Parts = (bool, i32, u32);

// The significands for which reciprocal seeds of the table are tried, with the seeds' exponents and significands.
const TABLE_RECIPROCALS: [(u32, i32, u32); 3] = [
    (0x80_0000, -1, 2044 << 19),
    (0xC0_0000, -1, 1364 << 19),
    (0xFF_FFFF, -1, 1025 << 19),
];

// The same for radicands and root seeds of the table.
const TABLE_ROOTS: [(u32, i32, u32); 4] = [
    (0x80_0000, -1, 2044 << 19),
    (0xFF_FFFF, -1, 1450 << 19),
    (0x100_0000, -1, 1445 << 19),
    (0x1FF_FFFE, -1, 1025 << 19),
];

// The same for reciprocal seeds of the line.
const LINE_RECIPROCALS: [(u32, i32, u32); 3] = [
    (0x80_0000, -1, 1073729168),
    (0xC0_0000, -1, 715818263),
    (0xFF_FFFF, -2, 1073732284),
];

// The same for root seeds of the line.
const LINE_ROOTS: [(u32, i32, u32); 3] = [
    (0x80_0000, -1, 1073556001),
    (0x100_0000, -1, 759154490),
    (0x1FF_FFFE, -2, 1073556033),
];

fn parts(n: Number) -> Parts {
    (n.is_negative(), n.exponent(), n.significand())
}

// A source's reciprocal seed for the significand with these bits, if there is one.
fn reciprocal<S: Source>(source: &S, bits: u32) -> Option<Parts> {
    Significand::new(bits).map(|b| parts(source.reciprocal(b)))
}

// A source's root seed for the radicand with these bits, if there is one.
fn root<S: Source>(source: &S, bits: u32) -> Option<Parts> {
    Radicand::new(bits).map(|t| parts(source.root(t)))
}

#[test]
fn table_reciprocals(rt: HostRuntime) {
    for (bits, exponent, significand) in TABLE_RECIPROCALS {
        let seed = Some((false, exponent, significand));
        assert_eq!(rt; reciprocal(&TableSource, bits), seed);
        assert_eq!(rt; reciprocal(&Delivered::Table, bits), seed);
    }
}

#[test]
fn table_roots(rt: HostRuntime) {
    for (bits, exponent, significand) in TABLE_ROOTS {
        let seed = Some((false, exponent, significand));
        assert_eq!(rt; root(&TableSource, bits), seed);
        assert_eq!(rt; root(&Delivered::Table, bits), seed);
    }
}

#[test]
fn line_reciprocals(rt: HostRuntime) {
    for (bits, exponent, significand) in LINE_RECIPROCALS {
        let seed = Some((false, exponent, significand));
        assert_eq!(rt; reciprocal(&LineSource, bits), seed);
        assert_eq!(rt; reciprocal(&Delivered::Line, bits), seed);
    }
}

#[test]
fn line_roots(rt: HostRuntime) {
    for (bits, exponent, significand) in LINE_ROOTS {
        let seed = Some((false, exponent, significand));
        assert_eq!(rt; root(&LineSource, bits), seed);
        assert_eq!(rt; root(&Delivered::Line, bits), seed);
    }
}

#[test]
fn out_of_range(rt: HostRuntime) {
    for bits in [0x7F_FFFF, 0x100_0000] {
        assert_eq!(rt; Significand::new(bits), None);
    }
    for bits in [0x7F_FFFF, 0x100_0001, 0x200_0000] {
        assert_eq!(rt; Radicand::new(bits), None);
    }
}

#[test]
fn words_of_the_delivered(rt: HostRuntime) -> Result<(), Fail> {
    for source in [Delivered::Table, Delivered::Line] {
        let word = format!(in rt.alloc(); "{source}")?;
        assert_eq!(rt; word.as_str().parse::<Delivered>(), Ok(source));
    }
    assert_eq!(rt; "table".parse::<Delivered>(), Ok(Delivered::Table));
    assert_eq!(rt; "line".parse::<Delivered>(), Ok(Delivered::Line));
    for word in ["", "tables", "Line"] {
        assert_eq!(rt; word.parse::<Delivered>(), Err(UnknownSource));
    }
    Ok(())
}
