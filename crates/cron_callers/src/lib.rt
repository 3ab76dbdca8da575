//! Functions that call `cron`, with contracts that are proved only from the public contracts of
//! `cron`. Rows of `cron_test_vectors` run each of them.
#![tactic(auto)]

mod check;
mod fires;
mod instants;
mod items;
mod literals;
mod restarts;
mod units;

pub use check::fault_of;
pub use fires::{missed_runs, next_fire};
pub use instants::{Alarms, first_alarms};
pub use items::{count_items, first_items, items_of_day, last_items};
pub use literals::work_days;
pub use restarts::{Noted, fire_after, item_after};
pub use units::{
    count_hours, descending_hours, greatest_month, has_thirteenth_month, minutes_between,
    some_warm_month, summer_months, year_count,
};
