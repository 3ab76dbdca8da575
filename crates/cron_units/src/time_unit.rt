//! The seven units, their sets of ordinals, and the public view of the sets.

mod days_of_month;
mod definition;
mod field;
mod iterators;
pub mod layout;
mod makers;
mod names;
mod ordinals;
mod units;
mod views;

pub use days_of_month::DaysOfMonth;
pub use definition::Definition;
pub use field::TimeUnitField;
pub use iterators::{OrdinalIter, OrdinalRangeIter};
pub(crate) use makers::add_steps;
pub use makers::{empty, only, whole};
pub use names::{Key, Names, with_letter};
pub use ordinals::{Ordinals, UnitTable};
pub use units::{
    DaysOfWeek, DaysOfWeekTable, Hours, HoursTable, Minutes, MinutesTable, Months, MonthsTable,
    NumberedDays, NumberedDaysTable, Seconds, SecondsTable, Years, YearsTable,
};
pub use views::TimeUnitSpec;

/// A number that stands for a second, an hour, a month and so on.
pub type Ordinal = u32;
