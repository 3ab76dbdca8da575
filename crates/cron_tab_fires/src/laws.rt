//! Laws about the entries of all crontabs. The functions do nothing, and a caller calls one for
//! what its contract says.
ghost use Rattle.cron_tab_fires.specs.Laws.{EntriesAscend};

/// The fires of each listed entry are in the order of their instants.
pub fn entries_ascend()
    ensures { EntriesAscend }
{}
