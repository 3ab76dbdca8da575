//! Rules of days, and sets of civil seconds by them. All calls that take a schedule take such a set.
//!
//! A rule allows some days of 1970-01-01 to 2100-12-31: `Dates` those of a list or all others,
//! `Every` one day, week or month in so many, `Span` those from one date to another. `All` and
//! `Both` allow what several rules do, `Opposite` what a rule doesn't, and `Rule` is one of any kind.
//! A rule of your own is a type with `Days`.
//!
//! `OnDays` has the civil seconds of a set on allowed days, `Moved` has each of them moved to an
//! allowed day, and `Except` has those that another set doesn't have.
//!
//! ```text
//! let holidays = Dates::without(alloc, &dates)?;
//! for fire in Fires::after(OnDays { seconds: table, days: holidays }, now, &zone) { .. }
//! ```
#![tactic(auto)]

pub mod all;
pub mod both;
pub mod dates;
pub mod day;
pub mod days;
mod edge;
pub mod every;
pub mod except;
pub mod laws;
pub mod moved;
pub mod on_days;
pub mod opposite;
pub mod period;
pub mod rest;
pub mod row;
pub mod rule;
mod runs;
mod sources;
pub mod span;
mod times;
