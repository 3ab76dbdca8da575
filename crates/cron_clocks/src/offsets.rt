//! The offsets of a civil second by a rule, from the transitions of its year. They are the offsets
//! of its readings. The saving is the part of the year when the rule's offset of daylight saving
//! time holds.
ghost use Rattle.std.specs.Prelude.{◌≡◌, ◌+ℤ◌, ◌-ℤ◌, ◌<ℤ◌, ℤ};
ghost use Rattle.jiff_core.specs.Calendar.{IsWithin};
ghost use Rattle.jiff_core.specs.Timestamp.{nanos_of_seconds};
ghost use Rattle.jiff_tz.specs.PosixRule.{ambiguous_ahead, ambiguous_behind, ambiguous_by, in_span, in_window};
ghost use Rattle.cron_clocks.specs.Spans.{PartsAlike};
ghost use Rattle.cron_clocks.specs.Steady.{IsToldBy};

use jiff::tz::Offset;

/// The second `at`, and the two transitions of its year. They are civil seconds, each transition on
/// the clock before it, or all three are seconds of UTC. In the saving the clock is `saving`
/// seconds ahead of its standard offset.
#[derive(Clone, Copy)]
pub(crate) struct Placed {
    pub at: i64,
    pub start: i64,
    pub end: i64,
    pub saving: i64,
    pub ghost start_near: { IsWithin 400_000_000_000 start },
    pub ghost end_near: { IsWithin 400_000_000_000 end },
    pub ghost saving_near: { IsWithin 200_000 saving },
}

impl Placed {
    /// Whether the saving lasts at the second. It may last over the new year.
    pub(crate) fn lasts(self) -> bool
        ensures { result ≡ in_window (self.start, self.end) self.at }
    {
        if self.start <= self.end {
            self.start <= self.at && self.at < self.end
        } else {
            !(self.end <= self.at && self.at < self.start)
        }
    }

    // Whether `at` is one of the first `saving` seconds from `start` on.
    fn follows_start(self) -> bool
        ensures { result ≡ in_span self.start (self.start +ℤ self.saving) self.at }
    {
        let past = self.start + self.saving;
        self.start <= self.at && self.at < past
    }

    // Whether `at` is one of the last `-saving` seconds before `start`.
    fn precedes_start(self) -> bool
        ensures { result ≡ in_span (self.start +ℤ self.saving) self.start self.at }
    {
        let first = self.start + self.saving;
        first <= self.at && self.at < self.start
    }

    // Whether `at` is one of the last `saving` seconds before `end`.
    fn precedes_end(self) -> bool
        ensures { result ≡ in_span (self.end -ℤ self.saving) self.end self.at }
    {
        let first = self.end - self.saving;
        first <= self.at && self.at < self.end
    }

    // Whether `at` is one of the first `-saving` seconds from `end` on.
    fn follows_end(self) -> bool
        ensures { result ≡ in_span self.end (self.end -ℤ self.saving) self.at }
    {
        let past = self.end - self.saving;
        self.end <= self.at && self.at < past
    }
}

// The offsets at which a civil second is read, if the clock is ahead in the saving. The seconds
// after the start are a gap, and the seconds before the end come twice.
fn offsets_ahead(
    standard: Offset,
    saving: Offset,
    placed: Placed,
) -> (Option<Offset>, Option<Offset>)
    requires { standard.seconds <ℤ saving.seconds }
    ensures { (w : ℤ × ℤ)
        → PartsAlike standard saving w placed.start placed.end placed.saving placed.at
        → IsToldBy
        (ambiguous_ahead standard saving w (nanos_of_seconds placed.at))
        result.0
        result.1 }
{
    if !placed.lasts() {
        (Some(standard), None)
    } else if placed.follows_start() {
        (None, None)
    } else if placed.precedes_end() {
        (Some(saving), Some(standard))
    } else {
        (Some(saving), None)
    }
}

// The offsets at which a civil second is read, if the clock is set back in the saving. The seconds
// before the start come twice, and the seconds after the end are a gap.
fn offsets_behind(
    standard: Offset,
    saving: Offset,
    placed: Placed,
) -> (Option<Offset>, Option<Offset>)
    requires { saving.seconds <ℤ standard.seconds }
    ensures { (w : ℤ × ℤ)
        → PartsAlike standard saving w placed.start placed.end placed.saving placed.at
        → IsToldBy
        (ambiguous_behind standard saving w (nanos_of_seconds placed.at))
        result.0
        result.1 }
{
    if placed.lasts() {
        (Some(saving), None)
    } else if placed.precedes_start() {
        (Some(standard), Some(saving))
    } else if placed.follows_end() {
        (None, None)
    } else {
        (Some(standard), None)
    }
}

/// The offsets at which a civil second is read: none in a gap, two in a fold, and otherwise one. In
/// a fold the first is the offset before the transition, and the second the offset after it.
pub(crate) fn offsets_among(
    standard: Offset,
    saving: Offset,
    placed: Placed,
) -> (Option<Offset>, Option<Offset>)
    requires { placed.saving ≡ saving.seconds -ℤ standard.seconds }
    ensures { (w : ℤ × ℤ)
        → PartsAlike standard saving w placed.start placed.end placed.saving placed.at
        → IsToldBy (ambiguous_by standard saving w (nanos_of_seconds placed.at)) result.0 result.1 }
{
    if placed.saving < 0 {
        offsets_behind(standard, saving, placed)
    } else if placed.saving > 0 {
        offsets_ahead(standard, saving, placed)
    } else {
        (Some(standard), None)
    }
}
