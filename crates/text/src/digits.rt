//! Writing a column: blanks, what leads the digits, the digits, what follows them.

ghost use Rattle.std.specs.Prelude.{◌≡◌, ◌+◌, ◌^◌, ◌<◌, ◌≤◌, ◌++◌, length, Ok, decimal, unsigned_abs};
ghost use Rattle.text.specs.Columns.{column_of};
ghost use Rattle.text.specs.Pages.{decimals, justified, leads, led, mark_text, measure_text, number_text, sign_of};

use crate::column::{Column, WIDTH};
use itoa::write_digits;

/// The column that ends with `lead`, if there is one, the digits of `n` and `tail`.
fn justified(lead: Option<u8>, n: u64, tail: &[u8]) -> Column
    requires { leads lead + length (decimal n) + length tail.now ≤ 14 }
    ensures { result ≡ justified 14 (led lead (decimal n ++ tail.now)) }
{
    let mut column = [b' '; WIDTH];
    let end = WIDTH - tail.len();
    column[end..].copy_from_slice(tail);
    let start = write_digits(n, &mut column, end);
    if let Some(byte) = lead {
        column[start - 1] = byte;
    }
    column
}

/// A minus below zero; zero has none.
fn sign_of(n: i64) -> Option<u8>
    ensures { result ≡ sign_of n }
{
    (n < 0).then_some(b'-')
}

/// The point and the three decimals of `n` thousandths.
fn decimals(n: u64) -> [u8; 4]
    ensures { result ≡ decimals n }
{
    let digit = |m: u64| b'0' + (m % 10) as u8;
    [b'.', digit(n / 100), digit(n / 10), digit(n)]
}

/// The column of a whole number.
pub(crate) fn number_column(n: i64) -> Column
    requires { unsigned_abs n < 10 ^ 13 }
    ensures { result ≡ number_text n }
{
    justified(sign_of(n), n.unsigned_abs(), &[])
}

/// The column of a refusal's number.
pub(crate) fn refusal_column(number: u8) -> Column
    ensures { result ≡ mark_text number }
{
    justified(Some(b'R'), u64::from(number), &[])
}

/// The column of `n` thousandths, with three decimals.
pub(crate) fn measure_column(n: i64) -> Column
    requires { unsigned_abs n < 10 ^ 12 }
    ensures { result ≡ measure_text n }
{
    let m = n.unsigned_abs();
    justified(sign_of(n), m / 1000, &decimals(m))
}

/// The column of any signed 32-bit number; reading it gives the number back.
#[tactic(auto, using(crate::proofs::Returning::reads_back))]
pub fn write_column(n: i32) -> Column
    ensures text { result ≡ number_text n }
    ensures reads { column_of result ≡ Ok n }
{
    number_column(i64::from(n))
}
