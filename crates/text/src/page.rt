//! The lines of a page: 29 bytes each, two columns and byte 10.

ghost use Rattle.std.specs.Prelude.{◌≡◌};
ghost use Rattle.text.specs.Pages.{has_room, line_text, page_after, placed, refusal_after, refusal_placed, row_text, writable};

use crate::column::{Column, WIDTH};
use crate::digits::{measure_column, number_column, refusal_column};
use crate::refusal::Refusal;
use crate::row::Row;

/// The length of a page line.
pub const LINE: usize = 2 * WIDTH + 1;

/// Whether a line has its place on the page.
fn has_room(page: &[u8], at: usize) -> bool
    ensures { result ≡ has_room page.now at }
{
    page.len().checked_sub(at).is_some_and(|left| left >= LINE)
}

/// A line of two columns and byte 10.
fn line_of(first: &Column, second: &Column) -> [u8; LINE]
    ensures { result ≡ line_text first.now second.now }
{
    let mut line = [b'\n'; LINE];
    line[..WIDTH].copy_from_slice(first);
    line[WIDTH..2 * WIDTH].copy_from_slice(second);
    line
}

/// Writes a line on the page from `at` on where there is room for it.
// The page and the place stay two parameters: a caller writes many lines on one page, each at a place of its own choice.
fn write_line(page: &mut [u8], at: usize, line: &[u8; LINE]) -> Result<(), Refusal>
    ensures answer { result ≡ placed page.old at }
    ensures after { page.new ≡ page_after page.old at line.now }
{
    if !has_room(page, at) {
        return Err(Refusal::PageFull);
    }
    page[at..at + LINE].copy_from_slice(line);
    Ok(())
}

/// Writes a row on the page from `at` on; `PageFull` where fewer than 29 bytes are left there. All other bytes stay.
pub fn write_row(page: &mut [u8], at: usize, row: Row) -> Result<(), Refusal>
    ensures answer { result ≡ placed page.old at }
    ensures after { page.new ≡ page_after page.old at (row_text row.distance row.offset) }
{
    let distance = measure_column(row.distance as i64);
    let offset = measure_column(row.offset);
    write_line(page, at, &line_of(&distance, &offset))
}

/// Whether a page can hold a refusal of that number at that line.
fn is_writable(number: u8, line: u32) -> bool
    ensures { result ≡ writable number line }
{
    matches!(number, 3 | 4 | 6) && (1..=1_000_000).contains(&line)
}

/// Writes a refusal's number, 3, 4 or 6, and its line, 1 to 1,000,000, on the page from `at` on: `Unwritable` at any other
/// number or line, and then `PageFull` where fewer than 29 bytes are left there. All other bytes stay.
// The number is a plain `u8`, and no enum: that any other number is refused is a promise of this call.
pub fn write_refusal(page: &mut [u8], at: usize, number: u8, line: u32) -> Result<(), Refusal>
    ensures answer { result ≡ refusal_placed page.old at number line }
    ensures after { page.new ≡ refusal_after page.old at number line }
{
    if !is_writable(number, line) {
        return Err(Refusal::Unwritable);
    }
    let number = refusal_column(number);
    let line = number_column(i64::from(line));
    write_line(page, at, &line_of(&number, &line))
}
