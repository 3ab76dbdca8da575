//! The law `one_offset`: a walk in a zone with one offset finds the first instants that show a
//! match.

use crate::answers::add_all;
use crate::zoned::Case;
use anyhow::{Context, Result, bail};
use cron::schedule::Moment;
use cron::{Schedule, laws};
use cron_test_rows::Row;
use jiff::Timestamp;
use jiff::tz::TimeZone;

type Two = (Option<Moment>, Option<Moment>);

/// The first two fires after `start`. It is an error if the zone isn't a fixed offset.
fn at_one_offset(schedule: &Schedule, start: Timestamp, zone: &TimeZone<'_>) -> Result<Two> {
    zone.to_fixed_offset().context("not one offset")?;
    laws::one_offset();
    Ok(laws::first_instants(schedule, start, zone))
}

/// The first two fires after `start`, in a zone made from a rule's text. It is an error if the rule
/// has daylight saving time.
fn by_rule(schedule: &Schedule, start: Timestamp, zone: &TimeZone<'_>) -> Result<Two> {
    let jiff_tz::TimeZone::Posix(rule) = zone.to_plain() else {
        bail!("not a rule's text");
    };
    if rule.dst.is_some() {
        bail!("a rule with a saving");
    }
    laws::one_offset();
    Ok(laws::first_instants(schedule, start, zone))
}

/// Replays a row, which has a start. The answer is the first two fires after it.
pub(crate) fn ask_first_instants(row: &mut Row<'_>, case: Case<'_>) -> Result<()> {
    let Case { schedule, zone } = case;
    let start = row.cell().parse()?;
    let (first, second) = if zone.to_fixed_offset().is_ok() {
        at_one_offset(schedule, start, zone)?
    } else {
        by_rule(schedule, start, zone)?
    };
    Ok(add_all(row, "", &[first, second])?)
}
