//! What a plan measures on a bench: a distance and an offset, in nearest whatever the mode that stands.

ghost use Rattle.std.specs.Prelude.{◌≡◌, false, []};
ghost use Rattle.registers.specs.declared.mode.Mode.TheVariants.{NearestEven as NearestCase};
ghost use Rattle.sheets.specs.Written.{values, written};
ghost use Rattle.bench.specs.Benches.{KeptIfRefused, Raises};
ghost use Rattle.bench.specs.Calls.{remainder_answer};
ghost use Rattle.bench.specs.Distances.{DistanceIfMeasured, DistanceLeaves, distance_answer, distance_flags, length_answer, length_flags, length_in, length_raised, sum_answer, sum_in, too_far};
ghost use Rattle.bench.specs.Desks.{RaisesThere};
ghost use Rattle.bench.specs.Worksheets.{RootLeaves};

use crate::bench::{Bench, ModeRecord};
use crate::desk::Desk;
use crate::kind::zero;
use crate::refusal::Refusal;
use crate::whole::whole_pattern;
use registers::{Mode, Pattern};
use sources::Source;

/// Nearest for as long as this lives; then the earlier mode stands again.
struct NearestGuard<'a> {
    lent: &'a mut ModeRecord,
    old: Mode,
}

impl Drop for NearestGuard<'_> {
    fn drop(self)
        ensures { self.exit.0.now.mode ≡ self.entry.old }
    {
        self.lent.mode = self.old;
        let NearestGuard { lent: _, old: _ } = self;
    }
}

impl<'a> NearestGuard<'a> {
    /// Sets nearest, and keeps the mode that stood.
    fn new(lent: &'a mut ModeRecord) -> NearestGuard<'a>
        ensures mode { result.lent.now.mode ≡ NearestCase }
        ensures old { result.old ≡ lent.old.mode }
        ensures lent { result.lent.ghost_name ≡ lent.entry.ghost_name }
    {
        let old = lent.mode;
        lent.mode = Mode::NearestEven;
        NearestGuard { lent, old }
    }
}

impl<S: Source> Desk<S> {
    /// The root of `x·x + (y·y + 0)` in a mode. It leaves the root's sheet.
    fn length(&mut self, mode: Mode, x: Pattern, y: Pattern) -> Pattern
        ensures answer { result ≡ (length_in mode x y).pattern }
        ensures after { RaisesThere (length_flags mode x y) self.old self.new }
        ensures sheet { RootLeaves (S.Source.roots self.old.source) mode (sum_in mode x y).pattern (values self.new.sheet) result }
    {
        let square = self.fuse(mode, y, y, zero(false));
        let sum = self.fuse(mode, x, x, square);
        self.root(mode, sum)
    }
}

// Operands one by one, and the empty sheet written out, for the reasons that stand at the other calls.
impl<S: Source> Bench<S> {
    /// The distance of a tab that lies `dx` and `dy` micrometres from the datum: the root of `dx·dx + (dy·dy + 0)`, each step in nearest.
    /// The mode that stood stands again on every way out. Refused where a difference is beyond ±16,777,215.
    pub fn distance(&mut self, dx: i64, dy: i64) -> Result<Pattern, Refusal>
        ensures answer { result ≡ distance_answer dx dy }
        ensures after { Raises (distance_flags dx dy) self.old self.new }
        ensures sheet { DistanceLeaves (S.Source.roots self.old.desk.source) dx dy self.old.desk.sheet self.new.desk.sheet result }
        ensures kept { KeptIfRefused result self.old self.new }
    {
        let guard = NearestGuard::new(&mut self.standing);
        let x = whole_pattern(dx).ok_or(Refusal::Beyond)?;
        let y = whole_pattern(dy).ok_or(Refusal::Beyond)?;
        Ok(self.desk.length(guard.lent.mode, x, y))
    }

    /// The remainder of a distance by a pitch, in nearest; the mode that stood stands again. It leaves an empty sheet.
    pub fn offset(&mut self, distance: Pattern, pitch: Pattern) -> Pattern
        ensures answer { result ≡ (remainder_answer NearestCase distance pitch).pattern }
        ensures after { Raises (remainder_answer NearestCase distance pitch).flags self.old self.new }
        ensures sheet { written self.new.desk.sheet ≡ [] }
    {
        let _guard = NearestGuard::new(&mut self.standing);
        self.desk.remainder(distance, pitch)
    }
}
