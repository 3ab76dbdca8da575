//! A stretch of seconds.

/// Seconds one after another that share a value. Seconds count from 1970-01-01T00:00:00Z.
#[derive(Clone, Copy, Debug, PartialEq, Eq)]
pub struct Stretch<V> {
    /// The first second.
    pub first: i64,
    /// The second after the last one.
    pub end: i64,
    /// The value.
    pub value: V,
}
