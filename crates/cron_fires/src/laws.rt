//! Laws over the definitions: the functions do nothing, and a caller calls one for what its
//! contract says. An item is a reading of a matching civil second, by a clock of the zone. The two
//! look-ups of a zone, of instants and of civil seconds, agree if each gives the offsets that the
//! other gives.

ghost use Rattle.cron_fires.specs.Laws.{AgreeingZonesTellApart, BothRulesAgree, DuesAreOfTheSchedules, FiresAreTheItems, ItemsAreOfTheSchedules, LoopsAreRuns, NextIsPast, StretchesHaveTheirItems};

pub use cron_seconds::laws::{cut_runs, instants_never_decrease, joined_stretches};

/// The fires are the items of the timeline, no more and no fewer.
pub fn fires_are_the_items()
    ensures { FiresAreTheItems }
{}

/// The fires between two instants are the items with an instant after the first and at or before
/// the second.
pub fn stretches_have_their_items()
    ensures { StretchesHaveTheirItems }
{}

/// The items and the due fires of several schedules as one are the items and the due fires of each
/// schedule, no more and no fewer.
pub fn fires_are_of_the_schedules()
    ensures items { ItemsAreOfTheSchedules }
    ensures dues { DuesAreOfTheSchedules }
{}

/// If the look-ups of a zone agree, no two items share an instant.
pub fn own_instants()
    ensures { AgreeingZonesTellApart }
{}

/// If no two items share an instant, the fires after an item's instant are the fires that follow
/// it.
pub fn next_is_past()
    ensures { NextIsPast }
{}

/// If no two items share an instant, a loop that always searches for the first fire after the
/// instant of the fire before gives a run.
pub fn loops_are_runs()
    ensures { LoopsAreRuns }
{}

/// Let the look-ups of a zone agree. In a stretch where the clock keeps its offset, both rules give
/// the same fires, if the clock showed nothing later before the stretch.
pub fn both_rules_agree()
    ensures { BothRulesAgree }
{}
