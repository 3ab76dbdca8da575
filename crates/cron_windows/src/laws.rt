//! Laws over the definitions: the functions do nothing, and a caller calls one for what its
//! contract says.
ghost use Rattle.cron_windows.specs.Laws.{LatestFireDecides, OpenWhereListed};

/// A window is open at a second exactly if the second lies in a window that is listed.
pub fn open_where_listed()
    ensures { OpenWhereListed }
{}

/// Of windows that close at fires of a second set the latest fire of both sets decides. At one
/// instant closing comes first.
pub fn latest_fire_decides()
    ensures { LatestFireDecides }
{}
