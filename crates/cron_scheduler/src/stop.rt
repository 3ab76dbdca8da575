//! What ends a run early.

use std::error::Error;
use std::fmt;

/// What ended a run before all of its fires were run. It prints as the error that it holds.
#[derive(Debug, PartialEq, Eq, Drop)]
pub enum Stop<C, J> {
    /// The clock couldn't be read, or couldn't wait.
    Clock(C),
    /// The job failed.
    Job(J),
}

impl<C: fmt::Display, J: fmt::Display> fmt::Display for Stop<C, J> {
    ghost use Rattle.cron_scheduler.specs.Runs.{stop_text};

    ghost output = { λ stop. stop_text C.output J.output stop };

    ghost styled_output = { λ stop spec.
        stop_text (λ e. C.styled_output e spec) (λ e. J.styled_output e spec) stop };

    fn fmt<W: fmt::Write>(&self, f: &mut fmt::Formatter<W>) -> fmt::Result {
        match self {
            Stop::Clock(error) => error.fmt(f),
            Stop::Job(error) => error.fmt(f),
        }
    }
}

impl<C: Error, J: Error> Error for Stop<C, J> {}
