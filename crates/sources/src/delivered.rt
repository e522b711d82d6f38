//! The delivered sources under one type, and the words for them.

use crate::line::LineSource;
use crate::operand::{Radicand, Significand};
use crate::source::Source;
use crate::table::TableSource;
use registers::Number;
use std::error::Error;
use std::fmt;
use std::str::FromStr;

/// A delivered source.
#[derive(Clone, Copy, PartialEq, Eq, Debug)]
pub enum Delivered {
    Table,
    Line,
}

/// A word that no delivered source has.
#[derive(Clone, Copy, PartialEq, Eq, Debug)]
pub struct UnknownSource;

impl Delivered {
    ghost use Rattle.std.specs.Prelude.{◌≡◌};
    ghost use Rattle.sources.specs.Delivered.{word_of};

    /// The word for the source.
    pub fn word(self) -> &'static str
        ensures { result.now ≡ word_of self }
    {
        match self {
            Delivered::Table => "table",
            Delivered::Line => "line",
        }
    }
}

impl Source for Delivered {
    ghost use Rattle.sources.specs.Delivered.{delivered_reciprocal, delivered_reciprocals_close, delivered_root, delivered_roots_close};

    ghost reciprocals = { delivered_reciprocal };

    ghost roots = { delivered_root };

    ghost reciprocals_close = { delivered_reciprocals_close };

    ghost roots_close = { delivered_roots_close };

    fn reciprocal(&self, b: Significand) -> Number {
        match self {
            Delivered::Table => TableSource.reciprocal(b),
            Delivered::Line => LineSource.reciprocal(b),
        }
    }

    fn root(&self, t: Radicand) -> Number {
        match self {
            Delivered::Table => TableSource.root(t),
            Delivered::Line => LineSource.root(t),
        }
    }
}

/// Reads the word for a source.
impl FromStr for Delivered {
    type Err = UnknownSource;

    ghost use Rattle.sources.specs.Delivered.{ReadsSource};

    ghost from_str_gives = { ReadsSource };

    fn from_str(word: &str) -> Result<Delivered, UnknownSource> {
        match word {
            "table" => Ok(Delivered::Table),
            "line" => Ok(Delivered::Line),
            _ => Err(UnknownSource),
        }
    }
}

impl fmt::Display for Delivered {
    ghost use Rattle.std.specs.Prelude.{Some};
    ghost use Rattle.std.specs.Fmt.{padded};
    ghost use Rattle.sources.specs.Delivered.{word_of};

    ghost output = { λ s. Some (word_of s) };

    ghost styled_output = { λ s spec. Some (padded spec (word_of s)) };

    fn fmt<W: fmt::Write>(&self, f: &mut fmt::Formatter<W>) -> fmt::Result {
        f.pad(self.word())
    }
}

impl fmt::Display for UnknownSource {
    ghost use Rattle.std.specs.Prelude.{Some, codes};

    ghost output = { λ _. Some (codes "no delivered source has this name") };

    fn fmt<W: fmt::Write>(&self, f: &mut fmt::Formatter<W>) -> fmt::Result {
        f.write_str("no delivered source has this name")
    }
}

impl Error for UnknownSource {}
