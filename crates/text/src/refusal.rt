//! Why a line or a call is refused.

ghost use Rattle.std.specs.Prelude.{◌≡◌};
ghost use Rattle.text.specs.Numbering.{bad_line, cause_number, refusal_number};

/// What is wrong with a plan line. The causes are tried in this order.
#[derive(Clone, Copy, PartialEq, Eq, Debug)]
pub enum Cause {
    /// There are more than 999,999 lines.
    Count,
    /// The line begins with none of `D`, `T` and `#`.
    Letter,
    /// The line is too long, too short, or lacks its byte 10.
    Length,
    /// A column holds no whole number.
    Digits,
    /// A column's number is outside the signed 32-bit numbers.
    Range,
    /// A datum after another, or a tab before the datum.
    Order,
}

/// A cause, and the byte of the line that it is found at, counted from 0.
#[derive(Clone, Copy, PartialEq, Eq, Debug)]
pub struct Fault {
    pub cause: Cause,
    pub byte: u32,
}

/// The layer that a refusal comes from.
#[derive(Clone, Copy, PartialEq, Eq, Debug)]
pub enum Layer {
    Plan,
    Text,
}

/// Why a call of this layer is refused.
#[derive(Clone, Copy, PartialEq, Eq, Debug)]
pub enum Refusal {
    /// A plan line is bad. Lines are counted from 1.
    BadLine {
        cause: Cause,
        line: u32,
        byte: u32,
        layer: Layer,
    },
    /// A refusal's number or line has no place on a page.
    Unwritable,
    /// The page ends before the line does.
    PageFull,
}

/// The cause's number, from 1 to 6.
impl From<Cause> for u8 {
    ghost from_gives = { λ cause number. number ≡ cause_number cause };

    fn from(cause: Cause) -> u8 {
        match cause {
            Cause::Count => 1,
            Cause::Letter => 2,
            Cause::Length => 3,
            Cause::Digits => 4,
            Cause::Range => 5,
            Cause::Order => 6,
        }
    }
}

impl Fault {
    /// The refusal of line `line` for this fault.
    pub fn at_line(self, line: u32) -> Refusal
        ensures { result ≡ bad_line line self }
    {
        Refusal::BadLine {
            cause: self.cause,
            line,
            byte: self.byte,
            layer: Layer::Text,
        }
    }
}

/// The refusal's number.
impl From<Refusal> for u8 {
    ghost from_gives = { λ refusal number. number ≡ refusal_number refusal };

    fn from(refusal: Refusal) -> u8 {
        match refusal {
            Refusal::BadLine { .. } => 6,
            Refusal::Unwritable => 8,
            Refusal::PageFull => 11,
        }
    }
}
