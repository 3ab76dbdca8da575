//! Laws over the definitions: the functions do nothing, and a caller calls one for what its
//! contract says.

ghost use Rattle.cron_days.specs.Laws.{AllowedDaysStay, MovedLieOnAllowedDays, NoneIsLost, StepsGoBothWays, WeeksBeginOnMonday};

/// A new week begins exactly with each Monday.
pub fn weeks_begin_on_monday()
    ensures { WeeksBeginOnMonday }
{}

/// Two days, weeks or months are apart by a number of steps exactly if one is as many steps after
/// the other.
pub fn steps_go_both_ways()
    ensures { StepsGoBothWays }
{}

/// Each moved civil second lies on an allowed day.
pub fn moved_lie_on_allowed_days()
    ensures { MovedLieOnAllowedDays }
{}

/// A civil second on an allowed day stays.
pub fn allowed_days_stay()
    ensures { AllowedDaysStay }
{}

/// A civil second of the set isn't lost if an allowed day comes in the direction: it is on the
/// nearest one, at its time of day.
pub fn none_is_lost()
    ensures { NoneIsLost }
{}
