//! The forms of fires that are written.

/// How fires are written.
#[derive(Clone, Copy, Debug, PartialEq, Eq)]
pub enum Form {
    /// Each fire as its text, on a line of its own.
    Text,
    /// Each fire as a JSON object on a line of its own: `fire`, its text, and `epoch`, its instant
    /// in seconds.
    Json,
}
