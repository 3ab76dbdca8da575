//! When a set of civil seconds fires, by instants: the first fire after now, the last one at or
//! before now, all of them in order, and the missed ones. A set is a schedule, several as one, or
//! anything else that has civil seconds.
//!
//! ```text
//! let mut fire = first_fire_after(&schedule, now, &zone);
//! while let Some(moment) = fire {
//!     // sleep until moment.timestamp(), and run the job
//!     fire = first_fire_past(&schedule, &moment, &zone);
//! }
//! ```
//!
//! `first_due_after` and its like do the same by the other rule: each match fires once, also when
//! the clock changes.
#![tactic(auto)]

ghost use Rattle.std.specs.Prelude.{◌≡◌};

use cron::Schedule;
use cron_units::fields::ScheduleFields;

mod changes;
mod fire;
pub mod laws;
mod matches;
mod runs;

pub use changes::ClockChanges;
pub use cron_dues::dues::{
    first_after as first_due_after, first_past as first_due_past, last_by as last_due_by,
};
pub use cron_dues::fire::DueFire;
pub use cron_dues::once::Once;
pub use cron_instants::as_shown::AsShown;
pub use cron_instants::instants::{
    first_after as first_fire_after, first_past as first_fire_past, last_by as last_fire_by,
};
pub use cron_seconds::back_run::BackRun;
pub use cron_seconds::civil_seconds::CivilSeconds;
pub use cron_seconds::rule::Rule;
pub use cron_seconds::run::Run;
pub use cron_unions::{AnyOf, Union};
pub use fire::Fire;
pub use matches::next_match;
pub use runs::{Dues, Fires, missed, missed_dues};

/// A copy of the seven sets of a schedule, for functions that keep sets.
#[inline(always)]
pub fn fields_of(schedule: &Schedule) -> ScheduleFields
    ensures { result ≡ schedule.now.sets }
{
    *schedule.fields()
}
