//! Fires one after another, by either rule. A table is what fires: a schedule, or another set of
//! civil seconds.
ghost use Rattle.std.specs.Prelude.{◌≡◌, IfOk};
ghost use Rattle.jiff.specs.Words.{plain_zone};
ghost use Rattle.cron_dues.specs.Dues.{dues_between};
ghost use Rattle.cron_instants.specs.Fires.{fires_between};

use cron::schedule::Moment;
use cron_dues::fire::DueFire;
use cron_dues::once::Once;
use cron_instants::as_shown::AsShown;
use cron_seconds::civil_seconds::CivilSeconds;
use cron_seconds::run::Run;
use jiff::Timestamp;
use jiff::tz::TimeZone;
use std::alloc::{AllocError, Global};

/// Fires of a table in a zone, the earliest first: each once, none left out, also in a fold. If two
/// share an instant, the one with the lesser civil second comes first.
pub type Fires<'a, T> = Run<'a, &'a T, AsShown<TimeZone<'a>>>;

/// Due fires of a table in a zone, in order: each match once, at the first instant when the clock
/// shows it or a later time.
pub type Dues<'a, T> = Run<'a, &'a T, Once<TimeZone<'a>>>;

/// The fires of [`Fires::between`] as a list: what came due after `last` and at or before `now`. It
/// may run out of memory; no clause says when.
pub fn missed<T: CivilSeconds>(
    alloc: Global,
    table: &T,
    last: Timestamp,
    now: Timestamp,
    zone: &TimeZone<'_>,
) -> Result<Vec<Moment>, AllocError>
    ensures { IfOk result (λ fires. fires.items
        ≡ fires_between (T.has table.now) (plain_zone zone.now) last.nanosecond now.nanosecond) }
{
    Fires::between(table, last, now, zone).collect(alloc)
}

/// The due fires of [`Dues::between`] as a list: what came due after `last` and at or before `now`.
/// It may run out of memory; no clause says when.
pub fn missed_dues<T: CivilSeconds>(
    alloc: Global,
    table: &T,
    last: Timestamp,
    now: Timestamp,
    zone: &TimeZone<'_>,
) -> Result<Vec<DueFire>, AllocError>
    ensures { IfOk result (λ fires. fires.items
        ≡ dues_between (T.has table.now) (plain_zone zone.now) last.nanosecond now.nanosecond) }
{
    Dues::between(table, last, now, zone).collect(alloc)
}
