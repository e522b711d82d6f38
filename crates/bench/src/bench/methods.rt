//! The calls and the questions.

ghost use Rattle.std.specs.Prelude.{◌≡◌, [], length};
ghost use Rattle.registers.specs.Modes.{mode_of};
ghost use Rattle.sheets.specs.Written.{last_of, line_at, values, written};
ghost use Rattle.bench.specs.Benches.{Fresh, KeptIfRefused, Raises, SheetOnly, cleared, set_answer, standing_mode, with_mode};
ghost use Rattle.bench.specs.Calls.{divide_answer, fuse_answer, remainder_answer, root_answer};
ghost use Rattle.bench.specs.Counts.{count_answer};
ghost use Rattle.bench.specs.Refused.{from_sheet};
ghost use Rattle.bench.specs.Remainders.{IsNearestQuotient};
ghost use Rattle.bench.specs.Values.{ExactRemainder};
ghost use Rattle.bench.specs.Worksheets.{CountLeaves, DivideLeaves, RootLeaves};

use crate::bench::{Bench, ModeRecord};
use crate::count::Counted;
use crate::desk::Desk;
use crate::flags::Flags;
use crate::refusal::Refusal;
use registers::{Mode, Pattern, Register};
use sheets::Sheet;
use sources::Source;

// Operands one by one: the calls' public signatures have them so.
// That a sheet is empty is written out as the sheet's own contracts write it: a word for it would be no plainer.
impl<S: Source> Bench<S> {
    /// A bench over a source: mode 0, no flags and an empty sheet.
    pub fn new(source: S) -> Bench<S>
        ensures { Fresh source result }
    {
        Bench {
            standing: ModeRecord {
                mode: Mode::NearestEven,
            },
            desk: Desk {
                flags: Flags::default(),
                sheet: Sheet::new(),
                source,
            },
        }
    }

    /// The mode that stands.
    pub fn mode(&self) -> Mode
        ensures { result ≡ standing_mode self.now }
    {
        self.standing.mode
    }

    /// The flags that are up.
    pub fn flags(&self) -> Flags
        ensures { result ≡ self.now.desk.flags }
    {
        self.desk.flags
    }

    /// How many lines the sheet has.
    pub fn lines(&self) -> usize
        ensures { result ≡ length (written self.now.desk.sheet) }
    {
        self.desk.sheet.count()
    }

    /// The line of a number, counted from 1. Refused where there is no such line.
    pub fn line(&self, n: usize) -> Result<Register, Refusal>
        ensures { result ≡ from_sheet (line_at (written self.now.desk.sheet) n) }
    {
        Ok(self.desk.sheet.line(n)?)
    }

    /// The last line, or nothing where the sheet is empty.
    pub fn last(&self) -> Option<Register>
        ensures { result ≡ last_of (written self.now.desk.sheet) }
    {
        self.desk.sheet.last()
    }

    /// Sets the mode by its number: 0 nearest with ties to even, 1 down, 2 up, 3 toward zero. Refused above 3.
    pub fn set_mode(&mut self, number: u32) -> Result<(), Refusal>
        ensures answer { result ≡ set_answer (mode_of number) }
        ensures after { self.new ≡ with_mode (mode_of number) self.old }
    {
        let mode = Mode::try_from(number)?;
        self.standing = ModeRecord { mode };
        Ok(())
    }

    /// Takes all flags down.
    pub fn clear(&mut self)
        ensures { self.new ≡ cleared self.old }
    {
        self.desk.clear();
    }

    /// `p·q + r`, rounded once. It leaves an empty sheet.
    pub fn fuse(&mut self, p: Pattern, q: Pattern, r: Pattern) -> Pattern
        ensures answer { result ≡ (fuse_answer (standing_mode self.old) p q r).pattern }
        ensures after { Raises (fuse_answer (standing_mode self.old) p q r).flags self.old self.new }
        ensures sheet { written self.new.desk.sheet ≡ [] }
    {
        self.desk.fuse(self.standing.mode, p, q, r)
    }

    /// `a / b`, rounded once from the closing value of its sheet.
    pub fn divide(&mut self, a: Pattern, b: Pattern) -> Pattern
        ensures answer { result ≡ (divide_answer (standing_mode self.old) a b).pattern }
        ensures after { Raises (divide_answer (standing_mode self.old) a b).flags self.old self.new }
        ensures sheet { DivideLeaves (S.Source.reciprocals self.old.desk.source) (standing_mode self.old) a b (values self.new.desk.sheet) result }
    {
        self.desk.divide(self.standing.mode, a, b)
    }

    /// The root of `a`, rounded once from the closing value of its sheet.
    pub fn root(&mut self, a: Pattern) -> Pattern
        ensures answer { result ≡ (root_answer (standing_mode self.old) a).pattern }
        ensures after { Raises (root_answer (standing_mode self.old) a).flags self.old self.new }
        ensures sheet { RootLeaves (S.Source.roots self.old.desk.source) (standing_mode self.old) a (values self.new.desk.sheet) result }
    {
        self.desk.root(self.standing.mode, a)
    }

    /// The remainder `x - n·y`, `n` the whole number nearest to `x / y`, a tie going to the even one. It leaves an empty sheet.
    pub fn remainder(&mut self, x: Pattern, y: Pattern) -> Pattern
        ensures answer { result ≡ (remainder_answer (standing_mode self.old) x y).pattern }
        ensures after { Raises (remainder_answer (standing_mode self.old) x y).flags self.old self.new }
        ensures sheet { written self.new.desk.sheet ≡ [] }
        ensures exact { ExactRemainder x y result }
        ensures nearest { IsNearestQuotient }
    {
        self.desk.remainder(x, y)
    }

    /// The quotient of two whole numbers, cut toward zero, from the closing value of the sheet of their magnitudes, and the remainder.
    /// Refused where an operand is beyond ±16,777,215, and else where the divisor is zero.
    pub fn count(&mut self, a: i32, b: i32) -> Result<Counted, Refusal>
        ensures answer { result ≡ count_answer a b }
        ensures after { SheetOnly self.old self.new }
        ensures sheet { CountLeaves (S.Source.reciprocals self.old.desk.source) a b self.old.desk.sheet self.new.desk.sheet result }
        ensures kept { KeptIfRefused result self.old self.new }
    {
        self.desk.count(a, b)
    }
}
