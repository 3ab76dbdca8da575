//! Files of holidays, read into dates: lists of dates, and iCalendar files of whole-day events.
#![tactic(auto)]

mod calendar;
mod contents;
mod dates;
mod event;
mod fault;
mod holidays;
mod lines;
mod list;
mod properties;

pub use fault::{HolidayFault, Reason, Refused};
pub use holidays::read_holidays;
