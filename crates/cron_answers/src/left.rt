//! Fires that are left to be listed.

ghost use Rattle.std.specs.Prelude.{List};
ghost use Rattle.std.specs.Iterator.{YieldsFirst};

use cron_fires::{BackRun, CivilSeconds, Rule, Run};

/// A sequence of fires that are taken one after another.
pub(crate) trait Left<F> {
    // the fires that are left
    ghost left: { Self → List F };

    /// Removes the first fire that is left and returns it. `None` if no fire is left.
    fn take_first(&mut self) -> Option<F>
        ensures { YieldsFirst left self.old result self.new };
}

impl<'a, S: CivilSeconds, R: Rule> Left<R::Fire> for Run<'a, S, R> {
    ghost left = { λ run. run };

    fn take_first(&mut self) -> Option<R::Fire> {
        self.next()
    }
}

impl<'a, S: CivilSeconds, R: Rule> Left<R::Fire> for BackRun<'a, S, R> {
    ghost left = { λ run. run };

    fn take_first(&mut self) -> Option<R::Fire> {
        self.next()
    }
}
