//! Replaces two schedules that share matches with two that share fewer and have the same union.
ghost use Rattle.std.specs.Prelude.{◌≡◌, ◌||◌, [], ◌∷◌};
ghost use Rattle.jiff_core.specs.declared.civil.datetime.DateTime.{DateTime};
ghost use Rattle.cron_time.specs.Matches.{matches};
ghost use Rattle.cron_unions.specs.Unions.{any_of};

use crate::covering::covers;
use crate::units::{UNITS, inside, outside};
use cron_units::fields::ScheduleFields;

// What `fields` matches, without the matches that it shares with `other`. They are left out if
// `other` covers the part of `fields` inside its own set of one unit. Otherwise, or if `fields`
// marks the last day, `fields` is unchanged.
fn own_part(fields: &ScheduleFields, other: &ScheduleFields) -> ScheduleFields
    ensures { (dt : DateTime) → (matches result dt || matches other.now dt)
        ≡ (matches fields.now dt || matches other.now dt) }
{
    if fields.days_of_month.last_day() {
        return *fields;
    }
    for unit in UNITS {
        if covers(other, &inside(fields, other, unit)) {
            return outside(fields, other, unit);
        }
    }
    *fields
}

/// Two schedules that match what `one` and `other` do. Suppose that one of these has all that the
/// other one matches except for the set of one unit, and that neither marks the last day. Then the
/// result has no shared match. The two schedules of a crontab line with both kinds of day are such
/// a pair. With a mark some matches may be shared, and a run still returns each once. That no match
/// is searched twice is only a matter of cost, which no clause states.
pub(crate) fn take_shared_out(
    one: &ScheduleFields,
    other: &ScheduleFields,
) -> (ScheduleFields, ScheduleFields)
    ensures { any_of (result.0 ∷ result.1 ∷ [])
        ≡ any_of (one.now ∷ other.now ∷ []) }
{
    let own = own_part(one, other);
    (own, own_part(other, &own))
}
