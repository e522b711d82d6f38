//! What a call works on, beside the mode that stands.

ghost use Rattle.std.specs.Prelude.{◌≡◌, []};
ghost use Rattle.sheets.specs.Written.{values, written};
ghost use Rattle.bench.specs.Calls.{divide_answer, fuse_answer, remainder_answer, root_answer};
ghost use Rattle.bench.specs.Desks.{RaisesThere, lowered};
ghost use Rattle.bench.specs.Remainders.{IsNearestQuotient};
ghost use Rattle.bench.specs.Tables.{answered};
ghost use Rattle.bench.specs.Values.{ExactRemainder};
ghost use Rattle.bench.specs.Worksheets.{DivideLeaves, RootLeaves};

use crate::answer::{Answer, Special};
use crate::flags::Flags;
use crate::fuse::fuse_value;
use crate::kind::is_subnormal;
use crate::remainder::remainder;
use registers::{Mode, Pattern, Rounded};
use sheets::Sheet;
use sources::Source;

/// What a call works on: the flags that are up, the sheet of the last call and the source of seeds.
/// The mode stands apart, so that it can be lent while a call runs.
#[derive(Drop)]
pub(crate) struct Desk<S: Source> {
    pub(crate) flags: Flags,
    pub(crate) sheet: Sheet,
    pub(crate) source: S,
}

// Operands one by one, as the bench's calls have them: a struct for each call's operands would be made once and taken apart once.
// That a sheet is empty is written out as the sheet's own contracts write it: a word for it would be no plainer.
impl<S: Source> Desk<S> {
    /// Takes all flags down.
    pub(crate) fn clear(&mut self)
        ensures { self.new ≡ lowered self.old }
    {
        self.flags = Flags::default();
    }

    /// Raises the flags of an answer, and gives its pattern.
    fn give(&mut self, subnormal: bool, value: Result<Rounded, Special>) -> Pattern
        ensures pattern { result ≡ (answered subnormal value).pattern }
        ensures after { RaisesThere (answered subnormal value).flags self.old self.new }
        ensures sheet { self.new.sheet ≡ self.old.sheet }
    {
        let answer = Answer::new(subnormal, value);
        self.flags = self.flags | answer.flags;
        answer.pattern
    }

    /// `p·q + r` in a mode. It leaves an empty sheet.
    pub(crate) fn fuse(&mut self, mode: Mode, p: Pattern, q: Pattern, r: Pattern) -> Pattern
        ensures answer { result ≡ (fuse_answer mode p q r).pattern }
        ensures after { RaisesThere (fuse_answer mode p q r).flags self.old self.new }
        ensures sheet { written self.new.sheet ≡ [] }
    {
        self.sheet.clear();
        let subnormal = is_subnormal(p) | is_subnormal(q) | is_subnormal(r);
        self.give(subnormal, fuse_value(mode, p, q, r))
    }

    /// `a / b` in a mode. It leaves its sheet.
    pub(crate) fn divide(&mut self, mode: Mode, a: Pattern, b: Pattern) -> Pattern
        ensures answer { result ≡ (divide_answer mode a b).pattern }
        ensures after { RaisesThere (divide_answer mode a b).flags self.old self.new }
        ensures sheet { DivideLeaves (S.Source.reciprocals self.old.source) mode a b (values self.new.sheet) result }
    {
        let value = self.quotient(mode, a, b);
        self.give(is_subnormal(a) | is_subnormal(b), value)
    }

    /// The root of `a` in a mode. It leaves its sheet.
    pub(crate) fn root(&mut self, mode: Mode, a: Pattern) -> Pattern
        ensures answer { result ≡ (root_answer mode a).pattern }
        ensures after { RaisesThere (root_answer mode a).flags self.old self.new }
        ensures sheet { RootLeaves (S.Source.roots self.old.source) mode a (values self.new.sheet) result }
    {
        let value = self.root_value(mode, a);
        self.give(is_subnormal(a), value)
    }

    /// The remainder of `x` by `y`, which is the same in every mode. It leaves an empty sheet.
    pub(crate) fn remainder(&mut self, x: Pattern, y: Pattern) -> Pattern
        ensures answer { (mode : Mode) → result ≡ (remainder_answer mode x y).pattern }
        ensures after { (mode : Mode) → RaisesThere (remainder_answer mode x y).flags self.old self.new }
        ensures sheet { written self.new.sheet ≡ [] }
        ensures exact { ExactRemainder x y result }
        ensures nearest { IsNearestQuotient }
    {
        self.sheet.clear();
        self.give(is_subnormal(x) | is_subnormal(y), remainder(x, y))
    }
}
