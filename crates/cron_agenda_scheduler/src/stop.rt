//! What ends a step early.

ghost use Rattle.std.specs.Prelude.{Some, string_bytes};

use cron_agenda::ZoneMissing;
use std::error::Error;
use std::fmt;

/// What ended a step before all that was due was run. It prints as the error that it holds.
#[derive(Debug, PartialEq, Eq, Drop)]
pub enum AgendaStop<C, J> {
    /// The clock couldn't be read, or couldn't wait.
    Clock(C),
    /// The zone of what fires next isn't lent.
    Zone(ZoneMissing),
    /// The job failed.
    Job(J),
}

impl<C: fmt::Display, J: fmt::Display> fmt::Display for AgendaStop<C, J> {
    ghost use Rattle.std.specs.Prelude.{None};
    ghost use Rattle.cron_agenda.specs.Messages.{zone_missing_text};
    ghost use Rattle.cron_agenda_scheduler.specs.Turns.{stop_text};

    ghost output = { λ stop. stop_text C.output (Some zone_missing_text) J.output stop };

    ghost styled_output = { λ stop spec.
        stop_text (λ e. C.styled_output e spec) None (λ e. J.styled_output e spec) stop };

    fn fmt<W: fmt::Write>(&self, f: &mut fmt::Formatter<W>) -> fmt::Result {
        match self {
            AgendaStop::Clock(error) => error.fmt(f),
            AgendaStop::Zone(error) => error.fmt(f),
            AgendaStop::Job(error) => error.fmt(f),
        }
    }
}

impl<C: Error, J: Error> Error for AgendaStop<C, J> {}
