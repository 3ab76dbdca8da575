//! Windows: each opens at a fire of a set of civil seconds, and closes after a number of seconds or
//! at the next fire of another set. Calls say whether a window is open at an instant, since when
//! and until when, list the windows between two instants, and count their seconds.
//!
//! A set is anything with `CivilSeconds`, and both sets fire by the same rule and clock. None of
//! the calls takes memory.
//!
//! ```text
//! let windows = Windows::<_, _, AsShown<TimeZone<'_>>>::closed_by(opens, closes, &zone);
//! for window in windows.open_between(from, to) { .. }
//! ```
#![tactic(auto)]

mod closing;
pub mod laws;
pub mod runs;
pub mod windows;
