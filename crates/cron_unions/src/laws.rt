//! Laws over the definitions: the functions do nothing, and a caller calls one for what its
//! contract says.

ghost use Rattle.cron_unions.specs.UnionLaws.{OneIsItsUnion, OrderDoesNotMatter, SecondsAreOfTheSchedules};

/// The civil seconds of a union are those that match one of its schedules, no more and no fewer.
pub fn seconds_are_of_the_schedules()
    ensures { SecondsAreOfTheSchedules }
{}

/// The union of a single schedule is that schedule.
pub fn one_is_its_union()
    ensures { OneIsItsUnion }
{}

/// The order of the schedules in a list doesn't matter, nor how often each is in it.
pub fn order_does_not_matter()
    ensures { OrderDoesNotMatter }
{}
