//! The periods of a zone's table. A clock keeps its offset from one transition of the table to the
//! next.
ghost use Rattle.std.specs.Prelude.{◌≡◌, ◌+◌, ◌<◌, ◌≤◌, ℤ, pos, ◌+ℤ◌, IfSome, int_le, vec_len};
ghost use Rattle.jiff_tz.specs.Tzif.{count_at, transition_at};
ghost use Rattle.jiff_tz.specs.declared.timezone.TimeZone.TheVariants.{Tzif};
ghost use Rattle.cron_instants.specs.Inner.Periods.{ArePassed, IsLastOf, IsPeriod, IsReadFrom};

use crate::offset_range::APART;
use cron_clocks::clock::Kept;
use cron_moments::civil::SECONDS;
use jiff::tz::Offset;
use jiff_tz::tzif::Transition;

/// The number of transitions of the table at or before `at`, in seconds since 1970-01-01T00:00:00Z.
pub(crate) fn transitions_by(table: &jiff_tz::Tzif, at: i64) -> usize
    ensures value { result ≡ count_at table.now at }
    ensures bound { result ≤ vec_len table.now.transitions }
{
    table.transitions().partition_point(
        |transition: &Transition| -> bool
            ensures { result ≡ int_le transition.now.second at }
        { transition.second <= at },
    )
}

/// The offset that a clock keeps after the first `count` transitions of the table, and up to where.
/// `None` if there is no next transition, if it comes less than `APART` seconds before the table's
/// last one, or if it isn't in the range.
pub(crate) fn period_past(table: &jiff_tz::Tzif, count: usize) -> Option<Kept>
    ensures more { IfSome result (λ kept. count < vec_len table.now.transitions) }
    ensures end { IfSome result (λ kept. (transition_at table.now count).second ≡ pos kept.end) }
    ensures period { IfSome result (λ kept. (a : ℤ) → ArePassed table.now count a
        → IsPeriod (Tzif table.entry) a (pos kept.end) kept.offset) }
    ensures first { IfSome result (λ kept. (a : ℤ) → IsLastOf table.now count a
        → IsReadFrom (Tzif table.entry) a (a +ℤ kept.offset.seconds)) }
{
    let transitions = table.transitions();
    if count >= transitions.len() {
        return None;
    }
    let next: Transition = transitions[count];
    let last: Transition = transitions[transitions.len() - 1];
    if next.second + APART > last.second {
        return None;
    }
    if next.second < 0 || next.second >= SECONDS {
        return None;
    }
    Some(Kept {
        offset: Offset::from_plain(next.before),
        end: next.second as u32,
    })
}
