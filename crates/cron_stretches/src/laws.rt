//! Laws over the definitions: the functions do nothing, and a caller calls one for what its
//! contract says.

ghost use Rattle.cron_stretches.specs.Laws.{AreRows, HoldTheirSeconds, SecondsAddUp};

/// The stretches between two seconds join to the whole, and neighbours have different values.
pub fn stretches_are_rows<V>()
    ensures { AreRows V }
{}

/// Each second between two seconds lies in a listed stretch, and has the value of the one in which
/// it lies.
pub fn stretches_hold_their_seconds<V>()
    ensures { HoldTheirSeconds V }
{}

/// The lengths of the stretches with some values add up to the number of seconds that have them.
pub fn seconds_add_up<V>()
    ensures { SecondsAddUp V }
{}
