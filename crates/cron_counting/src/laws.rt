//! Laws over the definitions: the functions do nothing, and a caller calls one for what its
//! contract says.

ghost use Rattle.cron_counting.specs.CountLaws.{DaysAddUp, HoursAddUp};

/// The counts of consecutive days add up to the number of items of all these days. The counts of
/// hours do so too: no fire is counted twice or left out.
pub fn counts_add_up()
    ensures days { DaysAddUp }
    ensures hours { HoursAddUp }
{}
