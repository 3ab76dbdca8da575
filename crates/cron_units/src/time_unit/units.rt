//! The seven units.

use super::names::{DAY_NAMES, DAY_SLOTS, DAY_SPREAD, MONTH_NAMES, MONTH_SLOTS, MONTH_SPREAD};
use super::{Definition, Names, Ordinals, UnitTable};
use cron_bits::wide::Wide;

/// A set of seconds, 0 to 59.
pub type Seconds = Ordinals<SecondsTable, u64>;

/// The table of `Seconds`.
#[derive(Clone, Copy, Debug)]
pub struct SecondsTable;

impl UnitTable<u64> for SecondsTable {
    ghost use Rattle.std.proofs.Common.{rules, refl};
    ghost use Rattle.cron_units.specs.Units.{seconds};
    ghost use Rattle.cron_units.specs.Laws.{is_unit-seconds};

    ghost unit = { seconds };

    ghost unmarked = { refl };

    ghost is_unit = { is_unit-seconds };

    ghost fits = { Prim.search rules };

    ghost iterates = { Prim.search rules };

    fn definition() -> Definition {
        Definition {
            title: "Seconds",
            least: 0,
            greatest: 59,
            names: None,
            question_mark: false,
            last_day: None,
        }
    }
}

/// A set of minutes, 0 to 59.
pub type Minutes = Ordinals<MinutesTable, u64>;

/// The table of `Minutes`.
#[derive(Clone, Copy, Debug)]
pub struct MinutesTable;

impl UnitTable<u64> for MinutesTable {
    ghost use Rattle.std.proofs.Common.{rules, refl};
    ghost use Rattle.cron_units.specs.Units.{minutes};
    ghost use Rattle.cron_units.specs.Laws.{is_unit-minutes};

    ghost unit = { minutes };

    ghost unmarked = { refl };

    ghost is_unit = { is_unit-minutes };

    ghost fits = { Prim.search rules };

    ghost iterates = { Prim.search rules };

    fn definition() -> Definition {
        Definition {
            title: "Minutes",
            least: 0,
            greatest: 59,
            names: None,
            question_mark: false,
            last_day: None,
        }
    }
}

/// A set of hours, 0 to 23.
pub type Hours = Ordinals<HoursTable, u64>;

/// The table of `Hours`.
#[derive(Clone, Copy, Debug)]
pub struct HoursTable;

impl UnitTable<u64> for HoursTable {
    ghost use Rattle.std.proofs.Common.{rules, refl};
    ghost use Rattle.cron_units.specs.Units.{hours};
    ghost use Rattle.cron_units.specs.Laws.{is_unit-hours};

    ghost unit = { hours };

    ghost unmarked = { refl };

    ghost is_unit = { is_unit-hours };

    ghost fits = { Prim.search rules };

    ghost iterates = { Prim.search rules };

    fn definition() -> Definition {
        Definition {
            title: "Hours",
            least: 0,
            greatest: 23,
            names: None,
            question_mark: false,
            last_day: None,
        }
    }
}

/// A set of days of the month by their numbers, 1 to 31.
pub type NumberedDays = Ordinals<NumberedDaysTable, u64>;

/// The table of `NumberedDays`.
#[derive(Clone, Copy, Debug)]
pub struct NumberedDaysTable;

impl UnitTable<u64> for NumberedDaysTable {
    ghost use Rattle.std.proofs.Common.{rules, refl};
    ghost use Rattle.cron_units.specs.Units.{days_of_month, without_last_day};
    ghost use Rattle.cron_units.specs.Laws.{is_unit-numbered_days};

    ghost unit = { without_last_day days_of_month };

    ghost unmarked = { refl };

    ghost is_unit = { is_unit-numbered_days };

    ghost fits = { Prim.search rules };

    ghost iterates = { Prim.search rules };

    fn definition() -> Definition {
        Definition {
            title: "Days of Month",
            least: 1,
            greatest: 31,
            names: None,
            question_mark: true,
            last_day: None,
        }
    }
}

/// A set of months, 1 (January) to 12.
pub type Months = Ordinals<MonthsTable, u64>;

/// The table of `Months`.
#[derive(Clone, Copy, Debug)]
pub struct MonthsTable;

impl UnitTable<u64> for MonthsTable {
    ghost use Rattle.std.proofs.Common.{rules, refl};
    ghost use Rattle.cron_units.specs.Units.{months};
    ghost use Rattle.cron_units.specs.Laws.{is_unit-months};

    ghost unit = { months };

    ghost unmarked = { refl };

    ghost is_unit = { is_unit-months };

    ghost fits = { Prim.search rules };

    ghost iterates = { Prim.search rules };

    fn definition() -> Definition {
        Definition {
            title: "Months",
            least: 1,
            greatest: 12,
            names: Some(Names {
                noun: "month name",
                ordinals: &MONTH_NAMES,
                slots: &MONTH_SLOTS,
                spread: MONTH_SPREAD,
            }),
            question_mark: false,
            last_day: None,
        }
    }
}

/// A set of days of the week, 1 (Sunday) to 7 (Saturday).
pub type DaysOfWeek = Ordinals<DaysOfWeekTable, u64>;

/// The table of `DaysOfWeek`.
#[derive(Clone, Copy, Debug)]
pub struct DaysOfWeekTable;

impl UnitTable<u64> for DaysOfWeekTable {
    ghost use Rattle.std.proofs.Common.{rules, refl};
    ghost use Rattle.cron_units.specs.Units.{days_of_week};
    ghost use Rattle.cron_units.specs.Laws.{is_unit-days_of_week};

    ghost unit = { days_of_week };

    ghost unmarked = { refl };

    ghost is_unit = { is_unit-days_of_week };

    ghost fits = { Prim.search rules };

    ghost iterates = { Prim.search rules };

    fn definition() -> Definition {
        Definition {
            title: "Days of Week",
            least: 1,
            greatest: 7,
            names: Some(Names {
                noun: "day of the week",
                ordinals: &DAY_NAMES,
                slots: &DAY_SLOTS,
                spread: DAY_SPREAD,
            }),
            question_mark: true,
            last_day: None,
        }
    }
}

/// A set of years, 1970 to 2100.
pub type Years = Ordinals<YearsTable, Wide>;

/// The table of `Years`.
#[derive(Clone, Copy, Debug)]
pub struct YearsTable;

impl UnitTable<Wide> for YearsTable {
    ghost use Rattle.std.proofs.Common.{rules, refl};
    ghost use Rattle.cron_units.specs.Units.{years};
    ghost use Rattle.cron_units.specs.Laws.{is_unit-years};

    ghost unit = { years };

    ghost unmarked = { refl };

    ghost is_unit = { is_unit-years };

    ghost fits = { Prim.search rules };

    ghost iterates = { Prim.search rules };

    fn definition() -> Definition {
        Definition {
            title: "Years",
            least: 1970,
            greatest: 2100,
            names: None,
            question_mark: false,
            last_day: None,
        }
    }
}
