//! Timers that start the service of their name.

ghost use Rattle.std.specs.Prelude.{◌≡◌, ◌++◌, true, IfErr, IfOk, OnOk};
ghost use Rattle.std.specs.List.{flat_map, list_all};
ghost use Rattle.cron_shell.specs.Lines.{input_lines};
ghost use Rattle.cron_systemd.specs.Sayable.{is_calendar};
ghost use Rattle.cron_systemd.specs.Texts as texts;
ghost use Rattle.cron_systemd.specs.Texts.{calendar_text, persistent_text};
ghost use Rattle.cron_systemd.specs.Timers.{IsNoCalendar, IsNoTimer, SaysTimer};

use crate::checks::is_calendar;
use crate::error::UnitError;
use crate::service::MOST;
use cron_shell::cut_line;
use std::alloc::{AllocError, Global};

// Appends the line of a calendar.
fn push_calendar(text: &mut Vec<u8>, line: &[u8]) -> Result<(), AllocError>
    ensures { OnOk result (text.new.items ≡ text.old.items ++ calendar_text line.now) }
{
    text.extend_from_slice(b"OnCalendar=")?;
    text.extend_from_slice(line)?;
    text.extend_from_slice(b"\n")
}

// Appends a line for each line of `calendars`. An error says that systemd doesn't take one.
fn push_calendars(text: &mut Vec<u8>, calendars: &[u8]) -> Result<(), UnitError>
    ensures ok { OnOk result (text.new.items ≡ text.old.items
        ++ flat_map calendar_text (input_lines calendars.now)) }
    ensures taken { OnOk result (list_all is_calendar (input_lines calendars.now) ≡ true) }
    ensures err { IfErr result (IsNoCalendar calendars.now) }
{
    let mut rest = calendars;
    while !rest.is_empty() {
        let (line, others) = cut_line(rest);
        if !is_calendar(line) {
            return Err(UnitError::Calendar);
        }
        push_calendar(text, line)?;
        rest = others;
    }
    Ok(())
}

// Appends how exactly the timer elapses, and whether it starts the service for what was missed.
fn push_persistent(text: &mut Vec<u8>, persistent: bool) -> Result<(), AllocError>
    ensures { OnOk result (text.new.items ≡ text.old.items ++ persistent_text persistent) }
{
    if persistent {
        return text.extend_from_slice(b"AccuracySec=1s\nPersistent=yes\n");
    }
    text.extend_from_slice(b"AccuracySec=1s\nPersistent=no\n")
}

// Appends the lines of a timer.
fn push_timer(text: &mut Vec<u8>, calendars: &[u8], persistent: bool) -> Result<(), UnitError>
    ensures ok { OnOk result (text.new.items
        ≡ text.old.items ++ texts.timer_text calendars.now persistent) }
    ensures taken { OnOk result (list_all is_calendar (input_lines calendars.now) ≡ true) }
    ensures err { IfErr result (IsNoCalendar calendars.now) }
{
    text.extend_from_slice(b"[Timer]\n")?;
    push_calendars(text, calendars)?;
    push_persistent(text, persistent)?;
    text.extend_from_slice(b"\n[Install]\nWantedBy=timers.target\n")?;
    Ok(())
}

/// The text of a timer that elapses when a line of `calendars` does, to the second. These are
/// values of `OnCalendar`, which aren't read. If `persistent`, the service is started as soon as
/// the timer is active again, if a time was missed. An error says what systemd doesn't take.
pub fn timer_text(alloc: Global, calendars: &[u8], persistent: bool) -> Result<Vec<u8>, UnitError>
    ensures ok { IfOk result (λ text. SaysTimer calendars.now persistent text.items) }
    ensures text { IfOk result (λ text. text.items
        ≡ texts.timer_text calendars.now persistent) }
    ensures err { IfErr result (IsNoTimer calendars.now persistent) }
{
    let mut text = Vec::new(alloc);
    push_timer(&mut text, calendars, persistent)?;
    if text.len() >= MOST {
        return Err(UnitError::Long);
    }
    Ok(text)
}
