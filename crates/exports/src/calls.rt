//! The bench's calls: each on a fresh bench in a mode, over source 0, the table, or any other number, the line.

use bench::{Bench, Counted, Flags, Refusal};
use registers::Pattern;
use sources::Delivered;

// A number for a source, and flags and refusals packed beside values: the C interface has no enum, Result or struct of ours.

/// A fresh bench over the source of a number.
fn fresh(source: u32) -> Bench<Delivered> {
    Bench::new(if source == 0 {
        Delivered::Table
    } else {
        Delivered::Line
    })
}

/// A pattern in the low 32 bits, and above it invalid, zero-divide, overflow, underflow, inexact and denormal.
fn packed(z: Pattern, flags: Flags) -> u64 {
    let low = u64::from(flags.invalid)
        | u64::from(flags.zero_divide) << 1
        | u64::from(flags.overflow) << 2;
    let high = u64::from(flags.underflow) << 3
        | u64::from(flags.inexact) << 4
        | u64::from(flags.denormal) << 5;
    u64::from(z.bits()) | (low | high) << 32
}

/// A quotient in the low 32 bits and a remainder above it; or the top bit and a refusal's number.
fn packed_count(z: Result<Counted, Refusal>) -> u64 {
    match z {
        Ok(c) => {
            let quotient = i64::from(c.quotient) & 0xFFFF_FFFF;
            let remainder = i64::from(c.remainder) & 0x7FFF_FFFF;
            quotient as u64 | (remainder as u64) << 32
        }
        Err(e) => 1 << 63 | u64::from(u32::from(e)),
    }
}

/// A call on a fresh bench in a mode: the pattern that it gives, and the flags that are up after it.
fn answer<F: FnOnce(&mut Bench<Delivered>) -> Pattern>(source: u32, mode: u32, call: F) -> u64
    requires { F.IsAlwaysCallable call }
{
    let mut bench = fresh(source);
    let _ = bench.set_mode(mode);
    let z = call(&mut bench);
    packed(z, bench.flags())
}

// One function a call, two of them of one shape: C calls each by its name.

#[unsafe(no_mangle)]
pub extern "C" fn bench_fuse(source: u32, mode: u32, p: u32, q: u32, r: u32) -> u64 {
    answer(source, mode, |bench| {
        bench.fuse(
            Pattern::from_bits(p),
            Pattern::from_bits(q),
            Pattern::from_bits(r),
        )
    })
}

#[unsafe(no_mangle)]
pub extern "C" fn bench_divide(source: u32, mode: u32, a: u32, b: u32) -> u64 {
    answer(source, mode, |bench| {
        bench.divide(Pattern::from_bits(a), Pattern::from_bits(b))
    })
}

#[unsafe(no_mangle)]
pub extern "C" fn bench_root(source: u32, mode: u32, a: u32) -> u64 {
    answer(source, mode, |bench| bench.root(Pattern::from_bits(a)))
}

#[unsafe(no_mangle)]
pub extern "C" fn bench_remainder(source: u32, mode: u32, x: u32, y: u32) -> u64 {
    answer(source, mode, |bench| {
        bench.remainder(Pattern::from_bits(x), Pattern::from_bits(y))
    })
}

#[unsafe(no_mangle)]
pub extern "C" fn bench_count(source: u32, a: i32, b: i32) -> u64 {
    packed_count(fresh(source).count(a, b))
}
