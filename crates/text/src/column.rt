//! Reading a column of a plan line: 14 bytes, a whole number after blanks.

ghost use Rattle.std.specs.Prelude.{◌≡◌, ◌≤◌, length, take};
ghost use Rattle.std.specs.List.{prefix_len};
ghost use Rattle.text.specs.Standing.{ReadAs};
ghost use Rattle.text.specs.Columns.{after_blanks, blank, column_of, digit_of, narrowed, needed, signed_of, unsigned, whole_of, wide_of};

use crate::refusal::Cause;

/// The length of a column.
pub const WIDTH: usize = 14;

/// The bytes of a column.
pub type Column = [u8; WIDTH];

/// The number that a decimal digit stands for.
fn digit(byte: u8) -> Option<u64>
    ensures { result ≡ digit_of byte }
{
    char::from(byte).to_digit(10).map(u64::from)
}

/// Whether there is a byte, and no zero before another byte.
fn is_needed(digits: &[u8]) -> bool
    ensures { result ≡ needed digits.now }
{
    match digits {
        [] => false,
        [_] => true,
        [first, ..] => *first != b'0',
    }
}

/// The number that digits write.
fn whole(digits: &[u8]) -> Option<i64>
    requires { length digits.now ≤ 14 }
    ensures { result ≡ unsigned (whole_of digits.now) }
{
    if !is_needed(digits) {
        return None;
    }
    let mut n: u64 = 0;
    for byte in digits {
        n = n * 10 + digit(*byte)?;
    }
    Some(n as i64)
}

/// Whether the byte is a blank.
fn is_blank(byte: u8) -> bool
    ensures { result ≡ blank byte }
{
    byte == b' '
}

/// How many blanks stand at the front.
fn blanks(text: &[u8]) -> usize
    ensures { result ≡ length (take (prefix_len blank text.now) text.now) }
{
    text.iter().take_while(|byte| is_blank(**byte)).count()
}

/// What stands after the blanks at the front.
#[tactic(auto, using(crate::proofs::Reading::after_blanks_rest))]
fn after_blanks(text: &[u8]) -> &[u8]
    ensures value { result.now ≡ after_blanks text.now }
    ensures short { length result.now ≤ length text.now }
{
    &text[blanks(text)..]
}

/// The number that a sign or none and digits write; after a minus it is not zero.
fn signed(text: &[u8]) -> Option<i64>
    requires { length text.now ≤ 14 }
    ensures { result ≡ signed_of text.now }
{
    match text {
        [b'-', digits @ ..] => match whole(digits)? {
            0 => None,
            n => Some(-n),
        },
        [b'+', digits @ ..] => whole(digits),
        _ => whole(text),
    }
}

/// The number that a column writes, however many digits it has.
pub(crate) fn wide(column: &[u8]) -> Option<i64>
    ensures { result ≡ wide_of column.now }
{
    if column.len() != WIDTH {
        return None;
    }
    signed(after_blanks(column))
}

/// The same number in 32 bits, or `Cause::Range`.
pub(crate) fn narrow(n: i64) -> Result<i32, Cause>
    ensures { result ≡ narrowed n }
{
    i32::try_from(n).map_err(|_| Cause::Range)
}

/// The number that a column of 14 bytes writes: `Cause::Digits` where it writes none, `Cause::Range` where it has more than 32 bits.
#[tactic(auto, using(crate::proofs::Deciding::read_as))]
pub fn read_column(column: &[u8]) -> Result<i32, Cause>
    ensures value { result ≡ column_of column.now }
    ensures meaning { ReadAs column.now result }
{
    wide(column).ok_or(Cause::Digits).and_then(narrow)
}
