//! Laws over the definitions: the functions do nothing, and a caller calls one for what its
//! contract says.

ghost use Rattle.cron_quartz_days.specs.Ranges.{RangesComeRound, StepsGoOn};
ghost use Rattle.cron_quartz_days.specs.Runs.{DatesRun, BeforeLastRuns, WeekdaysRun, LastWeekdayRuns, NthWeekdayRuns};
ghost use Rattle.cron_quartz_days.specs.Texts.{EachIsToldOnce, MeaningsHaveDays};
ghost use Rattle.cron_quartz_days.specs.Workdays.{NearestWorkdayRuns, LastWorkdayRuns, NearLastRuns};

/// Numbers of days of the month match exactly these days.
pub fn dates_run()
    ensures { DatesRun }
{}

/// `L` matches exactly the last day of a month, and `L-3` the day that 3 more days of its month
/// follow.
pub fn before_last_runs()
    ensures { BeforeLastRuns }
{}

/// Days of the week match exactly these days.
pub fn weekdays_run()
    ensures { WeekdaysRun }
{}

/// `6L` matches exactly the last Friday of a month.
pub fn last_weekday_runs()
    ensures { LastWeekdayRuns }
{}

/// `6#3` matches exactly the third Friday of a month.
pub fn nth_weekday_runs()
    ensures { NthWeekdayRuns }
{}

/// `15W` matches exactly the workday of a month that is nearest to its 15th.
pub fn nearest_workday_runs()
    ensures { NearestWorkdayRuns }
{}

/// `LW` matches exactly the last workday of a month.
pub fn last_workday_runs()
    ensures { LastWorkdayRuns }
{}

/// `L-3W` matches exactly the workday of a month that is nearest to the third day before its last.
pub fn near_last_runs()
    ensures { NearLastRuns }
{}

/// Each text either means something or is refused, and has only one meaning or one refusal.
pub fn each_is_told_once()
    ensures { EachIsToldOnce }
{}

/// Each meaning is a form of days, over a schedule that has all days.
pub fn meanings_have_days()
    ensures { MeaningsHaveDays }
{}

/// A range in ascending order has each number from the first by steps, up to the last.
pub fn steps_go_on()
    ensures { StepsGoOn }
{}

/// A range whose last number is less than its first goes on to the end of its unit, and from the
/// unit's beginning to the last number.
pub fn ranges_come_round()
    ensures { RangesComeRound }
{}
