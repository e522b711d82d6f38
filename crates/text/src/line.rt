//! Cutting a plan line into its columns, and reading them.

ghost use Rattle.std.specs.Prelude.{◌≡◌, ◌+◌, ◌*◌, ◌≤◌, length, map};
ghost use Rattle.text.specs.Columns.{judged};
ghost use Rattle.text.specs.Cutting.{at_byte, at_start, column, cut_of, parted, remark_sized, seen, sized};
ghost use Rattle.text.specs.Judging.{digits_at, entry_of, judged_of, line_of, narrow_at, numbers_of, wides_of};

use crate::column::{WIDTH, narrow, wide};
use crate::next::is_ended;
use crate::refusal::{Cause, Fault, Refusal};

/// A plan line cut into its columns, which are parts of the line.
#[derive(Clone, Copy, PartialEq, Eq, Debug)]
pub enum Line<'a> {
    Datum {
        x: &'a [u8],
        y: &'a [u8],
        pitch: &'a [u8],
    },
    Tab {
        x: &'a [u8],
        y: &'a [u8],
    },
    Remark(&'a [u8]),
}

/// What a plan line says: its letter and the numbers in its columns.
// Not one generic enum with `Line`: an entry keeps nothing of a remark, so each use of it would have to write `Remark(())`.
#[derive(Clone, Copy, PartialEq, Eq, Debug)]
pub enum Entry {
    Datum { x: i32, y: i32, pitch: i32 },
    Tab { x: i32, y: i32 },
    Remark,
}

/// The most lines that a plan has.
pub const MOST_LINES: u32 = 999_999;

/// The byte at which column `k` of a line begins, counted from 0: after the letter and the columns before it.
fn byte_of(k: u8) -> usize
    ensures { result ≡ 1 + 14 * k }
{
    1 + WIDTH * usize::from(k)
}

/// Column `k` of a line.
fn column(line: &[u8], k: u8) -> &[u8]
    requires { 15 + 14 * k ≤ length line.now }
    ensures { result.now ≡ column k line.now }
{
    let byte = byte_of(k);
    &line[byte..byte + WIDTH]
}

/// Whether a line is a letter, that many columns and byte 10.
fn is_sized(line: &[u8], columns: u8) -> bool
    ensures { result ≡ sized columns line.now }
{
    line.len() == byte_of(columns) + 1 && is_ended(line)
}

/// Whether a line is a letter, at most 78 bytes and byte 10.
fn is_remark(line: &[u8]) -> bool
    ensures { result ≡ remark_sized line.now }
{
    (2..=80).contains(&line.len()) && is_ended(line)
}

/// A fault of the whole line.
fn at_start(cause: Cause) -> Fault
    ensures { result ≡ at_start cause }
{
    Fault { cause, byte: 0 }
}

/// A line with its byte 10, cut into its columns: `Cause::Letter` or `Cause::Length` where it cannot be.
pub fn cut_line(line: &[u8]) -> Result<Line<'_>, Fault>
    ensures { seen result ≡ cut_of line.now }
{
    match line.first().map(|byte| char::from(*byte)) {
        Some('D') if is_sized(line, 3) => Ok(Line::Datum {
            x: column(line, 0),
            y: column(line, 1),
            pitch: column(line, 2),
        }),
        Some('T') if is_sized(line, 2) => Ok(Line::Tab {
            x: column(line, 0),
            y: column(line, 1),
        }),
        Some('#') if is_remark(line) => Ok(Line::Remark(&line[1..line.len() - 1])),
        Some('D' | 'T' | '#') => Err(at_start(Cause::Length)),
        _ => Err(at_start(Cause::Letter)),
    }
}

/// The fault of column `k`, at the column's first byte.
fn at_column(k: u8, cause: Cause) -> Fault
    ensures { result ≡ at_byte (1 + 14 * k) cause }
{
    Fault {
        cause,
        byte: byte_of(k) as u32,
    }
}

/// The number that column `k` writes, or its fault where it writes none.
fn digits_at(number: Option<i64>, k: u8) -> Result<i64, Fault>
    ensures { result ≡ digits_at (1 + 14 * k) number }
{
    number.ok_or(at_column(k, Cause::Digits))
}

/// The number of column `k` in 32 bits, or its fault.
fn narrow_at(number: i64, k: u8) -> Result<i32, Fault>
    ensures { result ≡ narrow_at (1 + 14 * k) number }
{
    narrow(number).map_err(|cause| at_column(k, cause))
}

/// The numbers that some columns write: the digits of every column, and then the range of every number.
fn numbers<const N: usize>(columns: &[&[u8]]) -> Result<[i32; N], Fault>
    requires { (N ≤ 3) × (length columns.now ≡ N) }
    ensures { result ≡ numbers_of (map judged (wides_of columns.now)) }
{
    // A slice of columns, and no array: the check takes no array of references whose length is a const parameter.
    // Written by index: after an adapter of `iter_mut` a proof knows no element, and `array::try_from_fn` does not say that its error is the first.
    let mut wides = [0; N];
    for (k, column) in columns.iter().enumerate() {
        wides[k] = digits_at(wide(column), k as u8)?;
    }
    let mut numbers = [0; N];
    for (k, wide) in wides.iter().enumerate() {
        numbers[k] = narrow_at(*wide, k as u8)?;
    }
    Ok(numbers)
}

impl Line<'_> {
    /// The numbers in the columns, or the fault of the leftmost bad one: `Cause::Digits` in any column before `Cause::Range`.
    pub fn entry(self) -> Result<Entry, Fault>
        ensures { result ≡ entry_of (parted self.entry) }
    {
        match self {
            Line::Datum { x, y, pitch } => {
                let [x, y, pitch] = numbers::<3>(&[x, y, pitch])?;
                Ok(Entry::Datum { x, y, pitch })
            }
            Line::Tab { x, y } => {
                let [x, y] = numbers::<2>(&[x, y])?;
                Ok(Entry::Tab { x, y })
            }
            Line::Remark(_) => Ok(Entry::Remark),
        }
    }
}

/// What a line with its byte 10 says, or its first fault, the causes tried in the order of their numbers.
pub fn read_line(line: &[u8]) -> Result<Entry, Fault>
    ensures { result ≡ line_of line.now }
{
    cut_line(line)?.entry()
}

/// What line `number` says, counted from 1, or the refusal with the line's first fault: past 999,999 lines `Cause::Count`.
pub fn judge_line(line: &[u8], number: u32) -> Result<Entry, Refusal>
    ensures { result ≡ judged_of number line.now }
{
    if number > MOST_LINES {
        return Err(at_start(Cause::Count).at_line(number));
    }
    read_line(line).map_err(|fault| fault.at_line(number))
}
