//! Expressions: five fields or a nickname are a crontab's, six or seven fields are this library's,
//! or Quartz's if the caller wants that.

ghost use Rattle.std.specs.Prelude.{◌≡◌, ◌≤◌, length, MatchResult};
ghost use Rattle.cron_crontab.specs.Crontab.{Refuses};
ghost use Rattle.cron_crontab.specs.Views.{fault_view};
ghost use Rattle.cron_plans.specs.Tables.{has_table};
ghost use Rattle.cron_answers.specs.Expressions.{changes_by, clock_changes, IsRead, IsReadAs, IsRefused, IsRefusedAs, KeepsCrontabs, KeepsOwn, matches_of, schedules_of};

use crate::refusal::Refusal;
use crate::words::has_words;
use cron_crontab::{Expression as TabExpression, Fault, Schedules, read as read_tab};
use cron_fires::ClockChanges;
use cron_plans::plan::Plan;
use cron_plans::table::Table;
use cron_quartz::{Expression as Union, read as read_quartz};
use cron_tab_warnings::follows_clock;
use cron_text::{fault_of, no_ordinals, read_into};
use cron_units::fields::ScheduleFields;

/// The least number of words of an expression of this library.
const FIELDS: usize = 6;

/// An expression that was read, by its kind.
#[derive(Drop)]
pub enum Expression {
    /// A crontab's: one or two schedules, and its own rule at clock changes. It fires when one of
    /// the schedules matches.
    Crontab(Schedules, ClockChanges),
    /// A crontab's `@reboot`, which no clock fires.
    Reboot,
    /// This library's: one schedule.
    Own([ScheduleFields; 1]),
    /// Quartz's: up to twelve schedules. It fires when one of them matches.
    Quartz(Union),
}

impl Expression {
    /// The expression's schedules. It fires when any of them does; `@reboot` has none.
    pub fn as_slice(&self) -> &[ScheduleFields]
        ensures list { result.now ≡ schedules_of self.now }
        ensures few { length result.now ≤ 12 }
    {
        match self {
            Expression::Crontab(schedules, _) => schedules.as_slice(),
            Expression::Reboot => &[],
            Expression::Own(one) => one,
            Expression::Quartz(union) => union.as_slice(),
        }
    }

    /// The civil seconds of the expression's fires: what `plan` leaves of its matches, or all of them
    /// if that is `None`.
    pub fn table<'e>(&'e self, plan: &Option<Plan<'e>>) -> Table<'e>
        ensures { has_table result ≡ matches_of plan.now self.now }
    {
        Table::of(self.as_slice(), plan)
    }

    /// The rule at clock changes: `chosen`, or the expression's own if that is `None`.
    pub fn changes(&self, chosen: Option<ClockChanges>) -> ClockChanges
        ensures { result ≡ changes_by chosen self.now }
    {
        match (chosen, self) {
            (Some(changes), _) => changes,
            (None, Expression::Crontab(_, changes)) => *changes,
            (None, _) => ClockChanges::AsShown,
        }
    }
}

/// The rule at clock changes of a crontab's expression, or of an entry by its line. One that follows
/// the clock fires each time that the clock shows a match. One at a fixed time fires once for each
/// match.
pub(crate) fn clock_changes(text: &str) -> ClockChanges
    ensures { result ≡ clock_changes text.now }
{
    if follows_clock(text) {
        ClockChanges::AsShown
    } else {
        ClockChanges::Once
    }
}

// Reads a text that is no crontab's expression, because of `fault`, as one of this library. `Err`
// has this library's fault if the text has six words or more, else `fault`.
fn read_own<'a>(text: &'a str, fault: Fault<'a>) -> Result<Expression, Refusal<'a>>
    requires { Refuses text.now (fault_view fault) }
    ensures { MatchResult result (IsRead text.now) (IsRefused text.now) }
{
    let mut fields = no_ordinals();
    if read_into(text, &mut fields) {
        return Ok(Expression::Own([fields]));
    }
    if has_words(text, FIELDS) {
        return Err(Refusal::Own(fault_of(text)));
    }
    Err(Refusal::Crontab(fault))
}

/// Reads an expression of a crontab or of this library. Only nicknames are both: they are read as a
/// crontab's, with its rule at clock changes. Their schedules are the same. A text that is neither
/// is refused: with a crontab's fault if it has fewer than six words, else with this library's.
pub fn read(text: &str) -> Result<Expression, Refusal<'_>>
    ensures { MatchResult result (IsRead text.now) (IsRefused text.now) }
{
    let outcome = read_tab(text);
    match &outcome {
        Ok(TabExpression::Fires(schedules)) => {
            Ok(Expression::Crontab(*schedules, clock_changes(text)))
        }
        Ok(TabExpression::Reboot) => Ok(Expression::Reboot),
        Err(fault) => read_own(text, *fault),
    }
}

/// Reads an expression: Quartz's if `quartz`, else a crontab's or this library's.
pub fn read_as(quartz: bool, text: &str) -> Result<Expression, Refusal<'_>>
    ensures { MatchResult result (IsReadAs quartz text.now) (IsRefusedAs quartz text.now) }
{
    if !quartz {
        return read(text);
    }
    match read_quartz(text) {
        Ok(union) => Ok(Expression::Quartz(union)),
        Err(fault) => Err(Refusal::Quartz(fault)),
    }
}

/// A law over the definitions, which a caller calls for its contract: a text is read as what it
/// means to a crontab, or to this library.
pub fn meanings_are_kept()
    ensures crontabs { KeepsCrontabs }
    ensures own { KeepsOwn }
{}
