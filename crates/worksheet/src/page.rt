//! The printed pages.

use crate::decimal::Decimal;
use crate::refine::Lines;
use crate::request::Refinement;
use crate::row::{write_line, write_modes, write_step};
use registers::{Choice, Datum, Finite, FusedSum, Register};
use sheets::{Closing, Sheet, fill_quotient, fill_root};
use sources::Delivered;
use std::alloc::{AllocError, Global};

/// The page of a refinement.
pub fn refinement_page(
    heap: Global,
    request: &Refinement,
    lines: &Lines,
) -> Result<String, AllocError> {
    let mut text = format!(in heap;
        "Reciprocal of {} = b' * 2^{}, b' = {}\n\nstep  sign   exponent   significand          value     1 - b'*y\n",
        request.pattern,
        request.number.exponent(),
        Decimal(Register::Nonzero(request.significand))
    )?;
    let rows = [
        ("y0", lines.start, lines.rest_0),
        ("e0", lines.rest_0, lines.rest_0),
        ("y1", lines.once, lines.rest_1),
        ("e1", lines.rest_1, lines.rest_1),
        ("y2", lines.twice, lines.rest_2),
    ];
    for (name, x, away) in rows {
        write_step(&mut text, name, x, away)?;
    }
    writeln!(
        text,
        "\nThe reciprocal of the number itself, y2 * 2^{}, rounded to a pattern",
        request.power.exponent()
    )?;
    let itself = FusedSum {
        r: Register::Zero,
        choice: Choice::Plus,
        p: lines.twice,
        q: Register::Nonzero(request.power),
    };
    write_modes(&mut text, |mode| itself.round(mode))?;
    Ok(text)
}

/// What a filled sheet has to show.
#[derive(Clone, Copy)]
struct Filled<'a> {
    sheet: &'a Sheet,
    names: &'a [&'a str],
    closing: Closing,
    negative: bool,
}

impl Filled<'_> {
    /// Writes the lines under their names, the closing value to 30 bits, and the result in the four modes.
    fn write(&self, text: &mut String) -> Result<(), AllocError> {
        writeln!(
            text,
            "line     sign   exponent   significand                 value"
        )?;
        for (name, x) in self.names.iter().zip(self.sheet.lines()) {
            write_line(text, name, *x)?;
        }
        match self.closing.sum().step(30) {
            Ok(x) => write_line(text, "closing", x)?,
            Err(_) => writeln!(text, "closing")?,
        }
        writeln!(text)?;
        write_modes(text, |mode| Some(self.closing.round(self.negative, mode)))
    }
}

/// The pages over a source, and the heap that their text is put on.
#[derive(Clone, Copy)]
pub struct Pages {
    pub heap: Global,
    pub source: Delivered,
}

impl Pages {
    /// The page of a quotient.
    pub fn quotient(self, a: Finite, b: Finite) -> Result<String, AllocError> {
        let mut sheet = Sheet::new();
        let closing = fill_quotient(&self.source, a, b, &mut sheet);
        let filled = Filled {
            sheet: &sheet,
            names: &["y0", "e0", "e1", "y1", "q1", "r1"],
            closing,
            negative: a.is_negative() != b.is_negative(),
        };
        let mut text = format!(in self.heap;
            "Quotient of {} by {} over the {} source\n\n",
            Datum::Finite(a).encode(),
            Datum::Finite(b).encode(),
            self.source
        )?;
        filled.write(&mut text)?;
        Ok(text)
    }

    /// The page of a root.
    pub fn root(self, a: Finite) -> Result<String, AllocError> {
        let mut sheet = Sheet::new();
        let closing = fill_root(&self.source, a, &mut sheet);
        let filled = Filled {
            sheet: &sheet,
            names: &[
                "y0", "S0", "H0", "d0", "H1", "S1", "d1", "e1", "S2", "H2", "e2",
            ],
            closing,
            negative: false,
        };
        let mut text = format!(in self.heap;
            "Root of {} over the {} source\n\n",
            Datum::Finite(a).encode(),
            self.source
        )?;
        filled.write(&mut text)?;
        Ok(text)
    }
}
