//! The seven units, and what users see of their sets.

pub use cron_units::time_unit::{
    DaysOfMonth, DaysOfWeek, Hours, Minutes, Months, Ordinal, OrdinalIter, OrdinalRangeIter,
    Seconds, TimeUnitSpec, Years,
};
