//! The fires of a set of civil seconds, written as structs to a caller's array. There are two
//! rules: a match fires each time that the clock shows it, or it fires once.

ghost use Rattle.cron_seconds.specs.Rules.{all_between, all_past_by};
ghost use Rattle.cron_c.specs.Arrays.{Fills};

use crate::due_item::item_of_due;
use crate::item::{self, CronItem};
use crate::status::Status;
use cron_dues::clock::Clock;
use cron_dues::fire::DueFire;
use cron_dues::once::Once;
use cron_instants::as_shown::AsShown;
use cron_moments::moment::Moment;
use cron_seconds::civil_seconds::CivilSeconds;
use cron_seconds::rule::Rule;
use cron_seconds::run::Run;
use jiff::Timestamp;
use jiff::tz::TimeZone;

/// A rule whose fires are written as items.
pub trait Itemed: Rule {
    ghost use Rattle.cron_c.specs.declared.item.CronItem.{CronItem};

    // whether the struct holds the fire
    ghost is_item: { Self.Fire → CronItem → Type 0 };

    /// The struct that holds `fire`.
    fn item_of(fire: &Self::Fire) -> CronItem
        ensures { is_item fire.now result };
}

impl<'z> Itemed for AsShown<TimeZone<'z>> {
    ghost use Rattle.cron_c.specs.Structs.{IsItem};

    ghost is_item = { IsItem };

    fn item_of(fire: &Moment) -> CronItem
        ensures { IsItem fire.now result }
    {
        item::item_of(fire)
    }
}

impl<C: Clock> Itemed for Once<C> {
    ghost use Rattle.cron_c.specs.Dues.{IsDueItem};

    ghost is_item = { IsDueItem };

    fn item_of(fire: &DueFire) -> CronItem {
        item_of_due(fire)
    }
}

// Writes the fires that `run` has left as far as they fit, and their count. If the array is full,
// one more fire is searched for: it returns `More` if there is one, else `Done`.
fn fill<S: CivilSeconds, R: Itemed>(
    run: &mut Run<'_, S, R>,
    items: &mut [CronItem],
    count: &mut usize,
) -> Status
    ensures { Fills R.is_item run.old items.old items.new count.new result }
{
    for at in 0..items.len() {
        let Some(fire) = run.next() else {
            *count = at;
            return Status::Done;
        };
        items[at] = R::item_of(&fire);
    }
    *count = items.len();
    match run.next() {
        Some(_) => Status::More,
        None => Status::Done,
    }
}

/// Writes the fires of `set` after `last` and at or before `now` as far as they fit, and their
/// count. It returns `More` if others are left, else `Done`.
pub fn fill_between<S: CivilSeconds, R: Itemed>(
    set: &S,
    last: Timestamp,
    now: Timestamp,
    clock: &R::Clock,
    items: &mut [CronItem],
    count: &mut usize,
) -> Status
    ensures { Fills R.is_item
        (all_between R.at (R.fires (S.has set.now) clock.now) last.nanosecond now.nanosecond)
        items.old items.new count.new result }
{
    fill(
        &mut Run::<&S, R>::between(set, last, now, clock),
        items,
        count,
    )
}

/// Writes the fires of `set` past `fire` and at or before `now` as far as they fit, and their
/// count. It returns `More` if others are left, else `Done`.
pub fn fill_past<S: CivilSeconds, R: Itemed>(
    set: &S,
    fire: &R::Fire,
    now: Timestamp,
    clock: &R::Clock,
    items: &mut [CronItem],
    count: &mut usize,
) -> Status
    ensures { Fills R.is_item
        (all_past_by R.at R.is_past (R.fires (S.has set.now) clock.now) fire.now now.nanosecond)
        items.old items.new count.new result }
{
    fill(
        &mut Run::<&S, R>::past_by(set, fire, now, clock),
        items,
        count,
    )
}
