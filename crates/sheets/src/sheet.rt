//! The table of lines.

pub mod calls;

ghost use Rattle.std.specs.Prelude.{◌≡◌, ◌≤◌, length};

use registers::Register;

/// A work sheet: a table for eleven lines, and how many are written.
// An array and a count, and no `Vec`: a sheet lies in fixed memory as plain data that is copied.
// No derived `==`: it would compare the places past the count too, and equal sheets would differ by lines that are gone.
// No model: it would forget the places past the count, and a type whose model forgets is not copied.
#[derive(Clone, Copy)]
pub struct Sheet {
    lines: [Register; 11],
    used: usize,
    ghost whole: { length lines ≡ 11 },
    ghost few: { used ≤ 11 },
}
