//! The table of a unit.

use super::{Names, Ordinal};

/// The table of a unit: its title, range and names, and which words it takes.
#[derive(Clone, Copy)]
pub struct Definition {
    /// What messages call the unit.
    pub title: &'static str,
    pub least: Ordinal,
    pub greatest: Ordinal,
    pub names: Option<Names>,
    /// Whether `?` may stand for the whole range.
    pub question_mark: bool,
    /// The name that means the last day of the month, if the unit has one.
    pub last_day: Option<&'static str>,
}
