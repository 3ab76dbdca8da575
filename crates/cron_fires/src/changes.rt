//! The rule at clock changes, as a value.

/// How a table, which is a schedule or another set of civil seconds, fires when the clock changes.
#[derive(Clone, Copy, Debug, PartialEq, Eq)]
pub enum ClockChanges {
    /// Each time that the clock shows a match: twice in a fold, and never in a gap.
    AsShown,
    /// Each match once, also in a fold or a gap.
    Once,
}
