//! The headline, and laws over the definitions. A law does nothing: a caller calls it for what its
//! contract says.

ghost use Rattle.std.specs.Prelude.{◌≡◌, IfOk, IfErr};
ghost use Rattle.jiff.specs.Words.{plain_zone};
ghost use Rattle.cron_units.specs.ItemLaws.{ItemsAreRefusedOnce, ItemsAreDecided};
ghost use Rattle.cron_units.specs.Texts.{Tells, IsMemory};
ghost use Rattle.cron.specs.Examples.{TextsAreCut, ItemsDenote, ItemsAreRefused, CursorsStep, DaysAreNumbered};
ghost use Rattle.cron_text.specs.Fault.{IsRefusal};
ghost use Rattle.cron.specs.Headline.{IsWalked};
ghost use Rattle.cron.specs.Instants.{IsLeastIfAny, IsNextIfAny, AreFirstTwo};
ghost use Rattle.cron.specs.Resumed.{CutRunsAreResumed, ItemsAreInRange};
ghost use Rattle.cron_text.specs.TextLaws.{MeansOnce, MeansSets, LongestFrontsAgree, HasOneFault, KeepsItsMeaning};
ghost use Rattle.cron_time.specs.Search.Times.{TimesOfDayMatch};
ghost use Rattle.cron_time.specs.Search.Counts.{DaysAtMost};
ghost use Rattle.cron_time.specs.Walk.FixedLaws as one;
ghost use Rattle.cron_time.specs.Walk.Laws as law;

use crate::schedule::{Moment, Schedule, Turn};
use cron_units::error::Error;
use jiff::Timestamp;
use jiff::tz::TimeZone;
use std::alloc::Global;

/// The headline, for every text, zone, start and list of calls: a text outside the grammar is
/// refused, and one inside it gives exactly the seven sets that it denotes. The calls walk over the
/// timeline of these sets, each to the neighbouring item.
pub fn headline(
    alloc: Global,
    text: &str,
    start: Timestamp,
    zone: &TimeZone<'_>,
    turns: &[Turn],
) -> Result<Vec<Option<Moment>>, Error>
    ensures walked { IfOk result (λ answers. IsWalked text.now
        (plain_zone zone.now) start.nanosecond turns.now answers.items) }
    ensures refused { IfErr result (Tells (IsRefusal text.now)) }
{
    let schedule = Schedule::from_str(alloc, text)?;
    let mut walk = schedule.after(start, zone);
    Ok(walk.play(alloc, turns)?)
}

/// Reading a source again gives the same schedule. Out of memory is its only error.
pub fn read_again(alloc: Global, schedule: &Schedule) -> Result<Schedule, Error>
    ensures same { IfOk result (λ again. again ≡ schedule.now) }
    ensures refused { IfErr result IsMemory }
{
    Schedule::from_str(alloc, schedule.source())
}

/// Equal schedules have equal sets.
pub fn equal_sets(one: &Schedule, other: &Schedule)
    requires { one.now.source ≡ other.now.source }
    ensures { one.now.sets ≡ other.now.sets }
{
    let _one = one.source();
    let _other = other.source();
}

/// In a zone with one offset, a walk from `start` returns the least instant after `start` that
/// shows a match, and then the least one after that. It returns `None` exactly if there is none.
/// Each answer is an item of the walk, with the offset of the zone.
pub fn first_instants(
    schedule: &Schedule,
    start: Timestamp,
    zone: &TimeZone<'_>,
) -> (Option<Moment>, Option<Moment>)
    requires { one.HasOneOffset (plain_zone zone.now) (one.offset_of (plain_zone zone.now)) }
    ensures first { IsLeastIfAny schedule.now.sets
        (one.offset_of (plain_zone zone.now)) start.nanosecond result.0 }
    ensures next { IsNextIfAny schedule.now.sets
        (one.offset_of (plain_zone zone.now)) result.0 result.1 }
    ensures walked { AreFirstTwo schedule.now.sets
        (plain_zone zone.now) start.nanosecond result.0 result.1 }
{
    let mut ahead = schedule.after(start, zone);
    let first = ahead.next();
    let second = ahead.next();
    (first, second)
}

/// The tokens of example texts, and the fields that they form.
pub fn texts_are_cut()
    ensures { TextsAreCut }
{}

/// The sets that example items denote.
pub fn items_denote()
    ensures { ItemsDenote }
{}

/// One example of each kind of refusal, with its message.
pub fn items_are_refused()
    ensures { ItemsAreRefused }
{}

/// An item of a unit has at most one reason to be refused. A list of items either denotes one set,
/// which has an ordinal or the mark of the last day, or has a first item that is refused.
pub fn items_are_decided()
    ensures each { ItemsAreRefusedOnce }
    ensures all { ItemsAreDecided }
{}

/// The steps of a cursor on four items, as examples.
pub fn cursors_step()
    ensures { CursorsStep }
{}

/// The numbers of civil seconds, of the first and the last day, and of a leap day.
pub fn days_are_numbered()
    ensures { DaysAreNumbered }
{}

/// A text means at most seven sets.
pub fn means_once()
    ensures { MeansOnce }
{}

/// A text means sets of the units. None of them is empty, except a set of days of the month that
/// has the mark of the last day in place of numbers.
pub fn means_sets()
    ensures { MeansSets }
{}

/// The earlier grammar has no word for the last day of a month, and only the first five shorthands.
/// A text that means seven sets in it means the same seven in the whole grammar, with no mark of
/// the last day.
pub fn earlier_texts()
    ensures { KeepsItsMeaning }
{}

/// A text that is no shorthand is in the grammar exactly if its longest fields, taken from the
/// left, are six or seven that denote sets, with nothing left over.
pub fn longest_fronts_agree()
    ensures { LongestFrontsAgree }
{}

/// A text has at most one fault.
pub fn has_one_fault()
    ensures { HasOneFault }
{}

/// The hour, the minute and the second of a civil time are among the times of day of the sets
/// exactly if each lies in its set.
pub fn times_of_day()
    ensures { TimesOfDayMatch }
{}

/// A search makes and tests no more dates than the 47847 of the range.
pub fn days_at_most()
    ensures { DaysAtMost }
{}

/// The run of two lists of calls, joined, is the run of the first and then the run of the second
/// from there.
pub fn joined_runs()
    ensures { law.RunsAreJoined }
{}

/// After a `None` every call returns `None`.
pub fn end_for_ever()
    ensures { law.EndIsForEver }
{}

/// After `next` returned an item that isn't the first, `next_back` returns the one before it, and a
/// further `next` returns the item again.
pub fn neighbours()
    ensures { law.NeighboursAreAnswered }
{}

/// The civil seconds of a timeline never decrease.
pub fn ascending_seconds()
    ensures { law.SecondsNeverDecrease }
{}

/// Each civil second occurs at most twice on a timeline.
pub fn twice_at_most()
    ensures { law.SecondsStandTwiceAtMost }
{}

/// Each item's civil second matches.
pub fn matching_items()
    ensures { law.ItemsMatch }
{}

/// A run that is cut after an item and resumed from it is the run uncut.
pub fn cut_runs()
    ensures { CutRunsAreResumed }
{}

/// Each item's civil second is in the range.
pub fn items_in_range()
    ensures { ItemsAreInRange }
{}

/// No item occurs twice on a timeline.
pub fn single_items()
    ensures { law.ItemsStandOnce }
{}

/// UTC and the zones that are made of an offset have one offset. So has a rule text without
/// daylight saving.
pub fn one_offset()
    ensures zones { one.FixedZonesHaveOneOffset }
    ensures rules { one.PlainRulesHaveOneOffset }
{}

/// In a zone with one offset, the first call of `next` from a start returns the least instant after
/// it that shows a match.
pub fn least_instant()
    ensures { one.FirstIsLeast }
{}

/// In a zone with one offset, a call of `next` from an item returns a later instant.
pub fn later_instants()
    ensures { one.NextIsLater }
{}
