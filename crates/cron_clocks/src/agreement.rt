//! Whether the two look-ups of a zone agree.

ghost use Rattle.std.specs.Prelude.{◌≡◌, None, IsTrue};
ghost use Rattle.jiff.specs.Words.{plain_zone, IsFixed};
ghost use Rattle.jiff_tz.specs.declared.timezone.TimeZone.TheVariants.{Posix};
ghost use Rattle.cron_clocks.specs.Clocks.{IsPlain, LookupsAgree};

use crate::transitions::transitions_apart;
use jiff::tz::TimeZone;
use jiff_tz::posix;

/// Whether the two look-ups of the zone are known to agree: the offset that its clock shows at an
/// instant, and the readings of a civil second. Returns true for UTC, for a zone with one offset,
/// and for a rule with no saving. Returns true also for a rule with two transitions a week or more
/// from each other and from the edges of a year of 365 days. Each transition is judged by all days
/// of the year that its date can fall on, by month and week. `false` says nothing: it is returned
/// for every other rule, and for a zone from a file.
pub fn lookups_agree(zone: &TimeZone<'_>) -> bool
    ensures agree { IsTrue result → LookupsAgree (plain_zone zone.now) }
    ensures fixed { IsFixed (plain_zone zone.now) → IsTrue result }
    ensures plain { IsPlain (plain_zone zone.now) → IsTrue result }
{
    match zone.to_plain() {
        jiff_tz::TimeZone::UTC | jiff_tz::TimeZone::Unknown | jiff_tz::TimeZone::Fixed(_) => true,
        jiff_tz::TimeZone::Posix(rule) => rule_agrees(rule),
        jiff_tz::TimeZone::Tzif(_) => false,
    }
}

fn rule_agrees(rule: posix::TimeZone) -> bool
    ensures agree { IsTrue result → LookupsAgree (Posix rule) }
    ensures plain { rule.dst ≡ None → IsTrue result }
{
    match rule.dst {
        Some(dst) => transitions_apart(dst),
        None => true,
    }
}
