//! The lines of a sheet.

use bench::Bench;
use registers::{Number, Pattern, Register};
use sources::{Delivered, Source, TableSource};
use std::process::Abort;

// The lines of 1 by 1 over the table, each of a positive number by its exponent and its significand.
const LINES: [(usize, i32, u32); 5] = [
    (1, -1, 511 << 21),
    (2, -9, 1 << 29),
    (3, -9, 513 << 20),
    (4, -1, (1 << 30) - 8),
    (5, 0, 1 << 29),
];

// A line, or the number of a refusal.
fn line<S: Source>(bench: &Bench<S>, n: usize) -> Result<Register, u32> {
    Ok(bench.line(n)?)
}

fn check_one_by_one<S: Source + Drop>(rt: &impl Abort, source: S) {
    let mut bench = Bench::new(source);
    let one = Pattern::from_bits(0x3F80_0000);
    assert_eq!(rt; bench.divide(one, one), one);
    for (n, exponent, significand) in LINES {
        let expected = Number::new(false, exponent, significand).map(Register::Nonzero);
        assert_eq!(rt; line(&bench, n).ok(), expected);
        assert!(rt; expected.is_some());
    }
    assert_eq!(rt; line(&bench, 6), Ok(Register::Zero));
    assert_eq!(rt; line(&bench, 7), Err(12));
    assert_eq!(rt; line(&bench, 0), Err(12));
}

#[test]
fn one_by_one_over_the_table(rt: HostRuntime) {
    check_one_by_one(&rt, TableSource);
    check_one_by_one(&rt, Delivered::Table);
}

fn check_last<S: Source + Drop>(rt: &impl Abort, source: S) {
    let mut bench = Bench::new(source);
    assert_eq!(rt; bench.last(), None);
    let _ = bench.root(Pattern::from_bits(0x4010_0000));
    assert_eq!(rt; bench.lines(), 11);
    assert!(rt; bench.last().is_some());
    let one = Pattern::from_bits(0x3F80_0000);
    let _ = bench.fuse(one, one, one);
    assert_eq!(rt; bench.lines(), 0);
    assert_eq!(rt; bench.last(), None);
}

#[test]
fn an_empty_sheet_has_no_last_line(rt: HostRuntime) {
    check_last(&rt, TableSource);
    check_last(&rt, Delivered::Table);
}
