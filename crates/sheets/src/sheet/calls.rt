//! Writing a sheet and asking it.

ghost use Rattle.std.specs.Prelude.{◌≡◌, ◌≤◌, ◌<◌, [], ◌∷◌, ◌++◌, length};
ghost use Rattle.sheets.specs.Written.{last_of, line_at, written};

use crate::refusal::Refusal;
use crate::sheet::Sheet;
use registers::Register;

impl Sheet {
    /// A sheet with no line.
    pub fn new() -> Sheet
        ensures { written result ≡ [] }
    {
        Sheet {
            lines: [Register::Zero; 11],
            used: 0,
        }
    }

    /// Takes all lines away.
    pub fn clear(&mut self)
        ensures { written self.new ≡ [] }
    {
        self.used = 0;
    }

    /// Writes one line more.
    fn write(&mut self, line: Register)
        requires { length (written self.old) < 11 }
        ensures { written self.new ≡ written self.old ++ (line ∷ []) }
    {
        self.lines[self.used] = line;
        self.used += 1;
    }

    /// Writes these lines, and no other.
    // One by one, and no copy of a table: for that the compiler would call the C library, which nothing else here needs.
    pub(crate) fn fill(&mut self, lines: &[Register])
        requires { length lines.now ≤ 11 }
        ensures { written self.new ≡ lines.now }
    {
        self.clear();
        for line in lines {
            self.write(*line);
        }
    }

    /// The lines that are written, the first one first.
    pub fn lines(&self) -> &[Register]
        ensures { result.now ≡ written self.now }
    {
        &self.lines[..self.used]
    }

    /// How many lines are written.
    pub fn count(&self) -> usize
        ensures { result ≡ length (written self.now) }
    {
        self.lines().len()
    }

    /// The line of a number, counted from 1. Refused where there is no such line.
    pub fn line(&self, n: usize) -> Result<Register, Refusal>
        ensures { result ≡ line_at (written self.now) n }
    {
        let index = n.checked_sub(1).ok_or(Refusal::NoSuchLine)?;
        self.lines().get(index).copied().ok_or(Refusal::NoSuchLine)
    }

    /// The last line, or nothing where none is written.
    pub fn last(&self) -> Option<Register>
        ensures { result ≡ last_of (written self.now) }
    {
        self.lines().last().copied()
    }
}
