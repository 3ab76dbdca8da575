//! Laws of every rule: the functions do nothing, and a caller calls one for what its contract says.

ghost use Rattle.std.specs.Prelude.{ℤ};
ghost use Rattle.cron_time.specs.Seconds.{Seconds};
ghost use Rattle.cron_seconds.specs.Laws.{RunsGoOn, RunsPastGoOn, StretchesAreJoined, StretchesGoOn};
ghost use Rattle.cron_seconds.specs.Rules.{NeverDecreases};

use crate::rule::Rule;

/// Instants never decrease from one fire to the next.
pub fn instants_never_decrease<R: Rule>()
    ensures { (s : Seconds) (clock : R.Clock) → NeverDecreases R.at (R.fires s clock) }
{
    R::in_order();
}

/// The run between instants `a` and `b`, and then the run between `b` and `c`, are the run between
/// `a` and `c`.
pub fn joined_stretches<R: Rule>()
    ensures { (s : Seconds) (clock : R.Clock) → StretchesAreJoined R.at (R.fires s clock) }
{
    R::in_order();
}

/// A run may begin after an instant, past a fire, or between two instants. If it is cut after a
/// fire, a run past that fire continues it as if it were uncut.
pub fn cut_runs<R: Rule>()
    ensures after { (s : Seconds) (clock : R.Clock) → RunsGoOn R.at R.is_past (R.fires s clock) }
    ensures past { (s : Seconds) (clock : R.Clock) → RunsPastGoOn R.is_past (R.fires s clock) }
    ensures between { (s : Seconds) (clock : R.Clock)
        → StretchesGoOn R.at R.is_past (R.fires s clock) }
{
    R::in_order();
}
