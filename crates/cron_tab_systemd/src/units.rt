//! The units of one entry.

ghost use Rattle.std.specs.Prelude.{◌≡◌, true, IfOk, MatchResult, map};
ghost use Rattle.std.specs.Option.{ForSome, option_map};
ghost use Rattle.std.specs.String.{string_bytes};
ghost use Rattle.cron_crontab.specs.Views.{expression_view};
ghost use Rattle.cron_oncalendar.specs.Zones.{is_word};
ghost use Rattle.cron_shell.specs.Lines.{variable_view};
ghost use Rattle.cron_tab_lines.specs.Views.{entry_view};
ghost use Rattle.cron_tab_systemd.specs.Entries.{AreUnits, IsCalendarFault, IsService, IsServiceFault, IsTimer, IsTimerFault, IsUnitsFault, SaysMeaning};

use crate::made::{Fault, Units, Unsaid};
use crate::zones::zone_of;
use cron_crontab::Expression;
use cron_oncalendar::lines::calendar_lines;
use cron_shell::Variable;
use cron_systemd::{Service, UnitError, service_text, timer_text};
use cron_tab_lines::{Entry, Unescaped};
use cron_tab_tasks::{input_text, shell_of, zone_of as value_of};
use std::alloc::Global;

// The lines of `OnCalendar` for an expression.
fn calendars_of(alloc: Global, expression: &Expression, zone: Option<&str>) -> Result<String, Fault>
    requires { ForSome zone (λ word. is_word word.now ≡ true) }
    ensures { MatchResult result
        (λ text. SaysMeaning (expression_view expression.now)
        (option_map (λ word. word.now) zone.entry) (string_bytes text))
        (IsCalendarFault (expression_view expression.now)) }
{
    let Expression::Fires(schedules) = expression else {
        return Err(Fault::Unsaid(Unsaid::Reboot));
    };
    match calendar_lines(alloc, schedules.as_slice(), zone)? {
        Some(lines) => Ok(lines),
        None => Err(Fault::Unsaid(Unsaid::Never)),
    }
}

// The timer for lines of `OnCalendar`.
fn timer_of(alloc: Global, calendars: &str, persistent: bool) -> Result<Vec<u8>, Fault>
    ensures { MatchResult result
        (λ text. IsTimer calendars.now persistent text.items)
        (IsTimerFault calendars.now persistent) }
{
    match timer_text(alloc, calendars.as_bytes(), persistent) {
        Ok(text) => Ok(text),
        Err(UnitError::OutOfMemory) => Err(Fault::OutOfMemory),
        Err(error) => Err(Fault::Unsaid(Unsaid::Timer(error))),
    }
}

// The service of an entry, where the lines above set `variables`.
fn service_of(
    alloc: Global,
    variables: &[Variable<'_>],
    entry: &Entry<'_>,
) -> Result<Vec<u8>, Fault>
    ensures { MatchResult result
        (λ text. IsService (map variable_view variables.now) (entry_view entry.now) text.items)
        (IsServiceFault (map variable_view variables.now) (entry_view entry.now)) }
{
    let command: Vec<u8> = Unescaped::of(entry.command).collect(alloc)?;
    let input = input_text(alloc, entry.input)?;
    let service = Service {
        user: entry.user,
        variables,
        shell: shell_of(variables),
        command: command.as_slice(),
        input: input.as_slice(),
    };
    match service_text(alloc, &service) {
        Ok(text) => Ok(text),
        Err(UnitError::OutOfMemory) => Err(Fault::OutOfMemory),
        Err(error) => Err(Fault::Unsaid(Unsaid::Service(error))),
    }
}

/// The units of an entry, where the lines above set `variables`. Its zone is `asked`, unless
/// `CRON_TZ` is set.
pub(crate) fn units_of(
    alloc: Global,
    asked: Option<&str>,
    persistent: bool,
    variables: &[Variable<'_>],
    entry: &Entry<'_>,
) -> Result<Units, Fault>
    requires { ForSome asked (λ word. is_word word.now ≡ true) }
    ensures { MatchResult result
        (AreUnits (option_map (λ word. word.now) asked.entry) persistent
        (map variable_view variables.now) (entry_view entry.now))
        (IsUnitsFault (option_map (λ word. word.now) asked.entry) persistent
        (map variable_view variables.now) (entry_view entry.now)) }
{
    let zone = match zone_of(asked, value_of(variables)) {
        Ok(zone) => zone,
        Err(why) => return Err(Fault::Unsaid(why)),
    };
    let calendars = calendars_of(alloc, &entry.expression, zone)?;
    let timer = timer_of(alloc, calendars.as_str(), persistent)?;
    let service = service_of(alloc, variables, entry)?;
    Ok(Units { timer, service })
}
