//! Why a calendar can't be made.

/// Why there is no calendar.
#[derive(Clone, Copy, Debug, PartialEq, Eq)]
pub enum IcsError {
    /// The calendar would have no event, and a calendar of RFC 5545 has one or more.
    NoEvents,
    /// The calendar would have more events than are wanted.
    TooMany,
    /// Memory ran out.
    OutOfMemory,
}
