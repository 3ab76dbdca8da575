//! Expressions that never fire.

ghost use Rattle.std.specs.Prelude.{◌≡◌, ◌↔◌, ◌<◌, ℕ, IsTrue, false};
ghost use Rattle.cron_moments.specs.Civil.{civil, seconds_in_range};
ghost use Rattle.cron_crontab.specs.Views.{expression_view};
ghost use Rattle.cron_time.specs.Matches.{is_match};
ghost use Rattle.cron_tab_warnings.specs.Warnings.{NeverRuns, NeverRunsByFields};
ghost use Rattle.cron_tabs.specs.DayRule.{matches_one};

use cron_crontab::Expression;
use cron_time::search::civil_seconds::nearest_match;
use cron_units::fields::ScheduleFields;
use cron_units::way::Way;

fn never_matches(fields: &ScheduleFields) -> bool
    ensures { IsTrue result ↔ ((c : ℕ) → is_match fields.now c ≡ false) }
{
    nearest_match(fields, Way::Ahead, 0).is_none()
}

fn none_matches(schedules: &[ScheduleFields]) -> bool
    ensures { IsTrue result
        ↔ ((c : ℕ) → c < seconds_in_range → matches_one schedules.now (civil c) ≡ false) }
{
    for fields in schedules {
        if !never_matches(fields) {
            return false;
        }
    }
    true
}

/// Returns true if an expression never fires, as `0 0 30 2 *`: no civil second of 1970 to 2100
/// matches. False for `@reboot`, which no clock fires.
pub fn never_runs(expression: &Expression) -> bool
    ensures { IsTrue result ↔ NeverRuns (expression_view expression.now) }
{
    match expression {
        Expression::Reboot => false,
        Expression::Fires(schedules) => none_matches(schedules.as_slice()),
    }
}

/// A law: five fields never fire exactly if they match no civil second of 1970 to 2100.
pub fn never_runs_by_fields()
    ensures { NeverRunsByFields }
{}
