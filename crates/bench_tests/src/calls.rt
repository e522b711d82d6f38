//! Results, refusals and flags.

use bench::{Bench, Flags, Refusal};
use registers::Pattern;
use sources::{Delivered, LineSource, Source, TableSource};
use std::process::Abort;
use std::test::Fail;

// The two sources by the type that holds either.
const SOURCES: [Delivered; 2] = [Delivered::Table, Delivered::Line];

// A fresh bench in a mode.
fn bench_in<S: Source + Drop>(source: S, mode: u32) -> Bench<S> {
    let mut bench = Bench::new(source);
    let _ = bench.set_mode(mode);
    bench
}

// A dividend, a divisor, and their quotient in the modes 0 to 3. The last would be 002F0830 to nearest if it were rounded twice.
const QUOTIENTS: [(u32, u32, [u32; 4]); 3] = [
    (
        0x3F80_0000,
        0x4040_0000,
        [0x3EAA_AAAB, 0x3EAA_AAAA, 0x3EAA_AAAB, 0x3EAA_AAAA],
    ),
    (
        0x3F80_0000,
        0xC040_0000,
        [0xBEAA_AAAB, 0xBEAA_AAAB, 0xBEAA_AAAA, 0xBEAA_AAAA],
    ),
    (
        0x3F3C_20BD,
        0x7EFF_FFFF,
        [0x002F_082F, 0x002F_082F, 0x002F_0830, 0x002F_082F],
    ),
];

const ROOTS: [(u32, [u32; 4]); 3] = [
    (
        0x4010_0000,
        [0x3FC0_0000, 0x3FC0_0000, 0x3FC0_0000, 0x3FC0_0000],
    ),
    (
        0x3F80_0001,
        [0x3F80_0000, 0x3F80_0000, 0x3F80_0001, 0x3F80_0000],
    ),
    (
        0x407F_FFFF,
        [0x3FFF_FFFF, 0x3FFF_FFFF, 0x4000_0000, 0x3FFF_FFFF],
    ),
];

// A call in the modes 0 to 3, over a source.
fn check_modes<S: Source + Copy + Drop, F: Fn(&mut Bench<S>) -> Pattern>(
    rt: &impl Abort,
    source: S,
    call: F,
    expected: [u32; 4],
)
    requires { F.IsAlwaysCallable call }
{
    for (mode, bits) in (0..4).zip(expected) {
        assert_eq!(rt; call(&mut bench_in(source, mode)), Pattern::from_bits(bits));
    }
}

fn check_quotients<S: Source + Copy + Drop>(rt: &impl Abort, source: S) {
    for (a, b, expected) in QUOTIENTS {
        let (a, b) = (Pattern::from_bits(a), Pattern::from_bits(b));
        check_modes(rt, source, |bench| bench.divide(a, b), expected);
    }
}

fn check_roots<S: Source + Copy + Drop>(rt: &impl Abort, source: S) {
    for (a, expected) in ROOTS {
        let a = Pattern::from_bits(a);
        check_modes(rt, source, |bench| bench.root(a), expected);
    }
}

#[test]
fn quotients_in_four_modes(rt: HostRuntime) {
    check_quotients(&rt, TableSource);
    check_quotients(&rt, LineSource);
    for source in SOURCES {
        check_quotients(&rt, source);
    }
}

#[test]
fn roots_in_four_modes(rt: HostRuntime) {
    check_roots(&rt, TableSource);
    check_roots(&rt, LineSource);
    for source in SOURCES {
        check_roots(&rt, source);
    }
}

// A dividend and a divisor, with the quotient and the remainder or the number of the refusal.
const COUNTS: [(i32, i32, Result<(i32, i32), u32>); 8] = [
    (-1000, 333, Ok((-3, -1))),
    (1000, -333, Ok((-3, 1))),
    (16_777_215, 1, Ok((16_777_215, 0))),
    (16_777_216, 1, Err(3)),
    (1, -16_777_216, Err(3)),
    (i32::MIN, 0, Err(3)),
    (0, 0, Err(2)),
    (0, 7, Ok((0, 0))),
];

// A quotient and a remainder, or the number of a refusal.
fn count<S: Source + Drop>(source: S, a: i32, b: i32) -> Result<(i32, i32), u32> {
    let c = Bench::new(source).count(a, b)?;
    Ok((c.quotient, c.remainder))
}

#[test]
fn counts_and_their_refusals(rt: HostRuntime) {
    for (a, b, expected) in COUNTS {
        assert_eq!(rt; count(TableSource, a, b), expected);
        assert_eq!(rt; count(Delivered::Table, a, b), expected);
    }
}

fn check_high_modes<S: Source + Drop>(rt: &impl Abort, source: S) {
    let mut bench = Bench::new(source);
    for n in [4, 5, u32::MAX] {
        assert_eq!(rt; bench.set_mode(n), Err(Refusal::HighMode));
    }
    assert_eq!(rt; u32::from(bench.mode()), 0);
}

#[test]
fn modes_above_three_are_refused(rt: HostRuntime) {
    check_high_modes(&rt, LineSource);
    check_high_modes(&rt, Delivered::Line);
    assert_eq!(rt; u32::from(Refusal::HighMode), 1);
}

#[test]
fn flags_and_refusals_in_words(rt: HostRuntime) -> Result<(), Fail> {
    let heap = rt.alloc();
    let mut bench = bench_in(Delivered::Table, 0);
    let one = Pattern::from_bits(0x3F80_0000);
    let least = Pattern::from_bits(1);
    let _ = bench.divide(one, Pattern::from_bits(0));
    let _ = bench.divide(least, Pattern::from_bits(0x4040_0000));
    assert_eq!(rt; format!(in heap; "{}", bench.flags())?.as_str(), "-Z-UXD");
    assert_eq!(rt;
        format!(in heap; "{}", Flags::default())?.as_str(),
        "------"
    );
    assert_eq!(rt;
        format!(in heap; "{} {}", Refusal::Beyond, Refusal::ZeroDivisor)?.as_str(),
        "R3 R2"
    );
    Ok(())
}
