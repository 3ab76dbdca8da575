//! How the time of a fire is written.
ghost use Rattle.std.specs.Prelude.{◌≡◌, ◌++◌, IfErr, OnOk};
ghost use Rattle.cron_dues.specs.DueText.{shown};
ghost use Rattle.cron_looks.specs.Times.{Adds, IsTime, IsTimeError, is_out_of_memory};

use crate::format::formatted;
use crate::looks::{Look, push_look};
use cron_dues::fire::{DueFire, nominal_second};
use cron_moments::moment::{Moment, moment_numbered};
use jiff_core::Error;
use std::alloc::Global;

/// How the time of a fire is written.
#[derive(Clone, Copy)]
pub enum Times<'f> {
    /// As its text.
    Plain,
    /// As a terminal shows it.
    Shown(Look),
    /// By a format of `strftime`.
    Format(&'f str),
}

/// What the clock shows at a due fire's instant.
pub fn clock_at(fire: &DueFire) -> Moment
    ensures { result ≡ shown fire.now }
{
    moment_numbered(nominal_second(fire) + fire.seconds_past(), fire.offset())
}

/// Whether a time couldn't be written since memory ran out. Else `strftime` refused the format.
pub fn is_out_of_memory(error: &Error) -> bool
    ensures { result ≡ is_out_of_memory error.now }
{
    matches!(error, Error::OutOfMemory)
}

/// Appends the time of a fire. `text` is the fire's text, and `moment` is what the clock shows at
/// its instant. It fails if memory runs out, or where `strftime` refuses the format.
pub fn push_time(
    alloc: Global,
    row: &mut Vec<u8>,
    times: &Times<'_>,
    text: &[u8],
    moment: &Moment,
) -> Result<(), Error>
    ensures ok { OnOk result (Adds (IsTime times.now text.now moment.now)
        row.old.items row.new.items) }
    ensures err { IfErr result (IsTimeError times.now moment.now) }
{
    match times {
        Times::Plain => row.extend_from_slice(text)?,
        Times::Shown(look) => push_look(alloc, row, look, text, moment)?,
        Times::Format(format) => {
            let made = formatted(alloc, format, moment)?;
            row.extend_from_slice(made.as_slice())?;
        }
    }
    Ok(())
}
