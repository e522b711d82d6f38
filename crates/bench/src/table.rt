//! The tables of special operands: the first row that fits decides, and is the error where one does.

ghost use Rattle.std.specs.Prelude.{◌≡◌};
ghost use Rattle.bench.specs.Tables.{divide_table, fuse_table, remainder_table, root_table};
ghost use Rattle.bench.specs.Unless.{unless};

use crate::answer::Special;
use crate::kind::{
    infinity, is_infinite, is_nan, is_negative, is_signalling, is_zero, signs_differ, zero,
};
use registers::Pattern;

// Operands one by one, in every table: a struct for each call's operands would be made once and taken apart once.
/// The table of `p·q + r`.
pub(crate) fn fuse_table(p: Pattern, q: Pattern, r: Pattern) -> Result<(), Special>
    ensures { result ≡ unless (fuse_table p q r) tt }
{
    let negative = signs_differ(p, q);
    let infinite = is_infinite(p) | is_infinite(q);
    if is_signalling(p) | is_signalling(q) | is_signalling(r) {
        return Err(Special::Invalid);
    }
    if is_infinite(p) & is_zero(q) {
        return Err(Special::Invalid);
    }
    if is_zero(p) & is_infinite(q) {
        return Err(Special::Invalid);
    }
    if is_nan(p) | is_nan(q) | is_nan(r) {
        return Err(Special::Quiet);
    }
    if infinite & is_infinite(r) & (negative != is_negative(r)) {
        return Err(Special::Invalid);
    }
    if infinite {
        return Err(Special::Given(infinity(negative)));
    }
    if is_infinite(r) {
        return Err(Special::Given(r));
    }
    Ok(())
}

/// The table of `a / b`.
pub(crate) fn divide_table(a: Pattern, b: Pattern) -> Result<(), Special>
    ensures { result ≡ unless (divide_table a b) tt }
{
    let negative = signs_differ(a, b);
    if is_signalling(a) | is_signalling(b) {
        return Err(Special::Invalid);
    }
    if is_nan(a) | is_nan(b) {
        return Err(Special::Quiet);
    }
    if is_infinite(a) & is_infinite(b) {
        return Err(Special::Invalid);
    }
    if is_zero(a) & is_zero(b) {
        return Err(Special::Invalid);
    }
    if is_infinite(a) {
        return Err(Special::Given(infinity(negative)));
    }
    if is_infinite(b) | is_zero(a) {
        return Err(Special::Given(zero(negative)));
    }
    if is_zero(b) {
        return Err(Special::ByZero(infinity(negative)));
    }
    Ok(())
}

/// The table of the root of `a`.
pub(crate) fn root_table(a: Pattern) -> Result<(), Special>
    ensures { result ≡ unless (root_table a) tt }
{
    if is_signalling(a) {
        return Err(Special::Invalid);
    }
    if is_nan(a) {
        return Err(Special::Quiet);
    }
    if is_zero(a) {
        return Err(Special::Given(a));
    }
    if is_negative(a) {
        return Err(Special::Invalid);
    }
    if is_infinite(a) {
        return Err(Special::Given(a));
    }
    Ok(())
}

/// The table of the remainder of `x` by `y`.
pub(crate) fn remainder_table(x: Pattern, y: Pattern) -> Result<(), Special>
    ensures { result ≡ unless (remainder_table x y) tt }
{
    if is_signalling(x) | is_signalling(y) {
        return Err(Special::Invalid);
    }
    if is_nan(x) | is_nan(y) {
        return Err(Special::Quiet);
    }
    if is_infinite(x) | is_zero(y) {
        return Err(Special::Invalid);
    }
    if is_infinite(y) {
        return Err(Special::Given(x));
    }
    Ok(())
}
