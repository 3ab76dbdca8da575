//! What lasts from one second to another.
ghost use Rattle.std.specs.Prelude.{◌≡◌, ◌↔◌, IsTrue, MatchOption};
ghost use Rattle.jiff_core.specs.Timestamp.{IsTimestampNanos, nanos_of_seconds};
ghost use Rattle.cron_ics.specs.Spans.{AreEnds};

use jiff::Timestamp;

/// What becomes an event: it lasts from one second to a later one.
#[derive(Clone, Copy)]
pub struct Span<'a> {
    /// The summary of the event, which a calendar shows as its title.
    pub summary: &'a [u8],
    /// The second when it begins, counted from 1970-01-01T00:00:00Z.
    pub from: i64,
    /// The second when it ends, counted in the same way.
    pub until: i64,
    ghost ends: { AreEnds from until },
}

// Whether a `Timestamp` names the second `second`, counted from 1970-01-01T00:00:00Z.
fn is_instant(second: i64) -> bool
    ensures { IsTrue result ↔ IsTimestampNanos (nanos_of_seconds second) }
{
    Timestamp::from_second(second).is_ok()
}

impl<'a> Span<'a> {
    /// The span with these ends. `None` exactly if `until` isn't later than `from`, or if a
    /// `Timestamp` doesn't name one of them.
    pub fn new(summary: &'a [u8], from: i64, until: i64) -> Option<Span<'a>>
        ensures { MatchOption result (¬ (AreEnds from until))
            (λ span. (span.summary.now ≡ summary.now) × (span.from ≡ from) × (span.until ≡ until)) }
    {
        if from < until && is_instant(from) && is_instant(until) {
            return Some(Span {
                summary,
                from,
                until,
            });
        }
        None
    }
}
