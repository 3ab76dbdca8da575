//! How far the order of a zone's readings can differ from the order of their civil seconds.
ghost use Rattle.std.specs.Prelude.{◌≡◌, ℤ, pos, ◌≤ℤ◌};
ghost use Rattle.jiff.specs.Words.{plain_zone};
ghost use Rattle.jiff_core.specs.Calendar.{IsBetween};
ghost use Rattle.jiff_tz.specs.declared.timezone.TimeZone.TheVariants.{Tzif};
ghost use Rattle.cron_instants.specs.OffsetRange.{HasOffsets, IsAmongOffsets, IsOffsetRange, width};

use cron_moments::civil::{FURTHEST_OFFSET, SECONDS};
use jiff::tz::TimeZone;
use jiff_tz::posix;
use jiff_tz::tzif::Transition;

/// The offsets of any two clocks differ by less than this, in seconds.
pub(crate) const APART: i64 = 2 * (FURTHEST_OFFSET + 1);

/// The offsets of a zone, in seconds: from `edge` on its readings are at offsets from `least` to
/// `greatest`. Before `edge` they come in the order of a table's transitions.
#[derive(Clone, Copy)]
pub(crate) struct OffsetRange {
    pub edge: i64,
    pub least: i32,
    pub greatest: i32,
}

// The range of the single offset `seconds` from `edge` on.
fn at_one_offset(edge: i64, seconds: i32) -> OffsetRange
    ensures edge { result.edge ≡ edge }
    ensures least { result.least ≡ seconds }
    ensures greatest { result.greatest ≡ seconds }
{
    OffsetRange {
        edge,
        least: seconds,
        greatest: seconds,
    }
}

impl OffsetRange {
    /// The difference between the greatest and the least offset, in seconds.
    #[inline(always)]
    pub(crate) fn width(self) -> i64
        requires { self.least ≤ℤ self.greatest }
        ensures value { result ≡ width self }
        ensures bound { IsBetween (pos 0) (pos 4_294_967_295) result }
    {
        i64::from(self.greatest) - i64::from(self.least)
    }

    // The range widened to include the offset `seconds`.
    fn with(self, seconds: i32) -> OffsetRange
        requires { self.least ≤ℤ self.greatest }
        ensures edge { result.edge ≡ self.edge }
        ensures one { IsAmongOffsets result seconds }
        ensures others { (o : ℤ) → IsAmongOffsets self o → IsAmongOffsets result o }
    {
        if seconds < self.least {
            OffsetRange {
                edge: self.edge,
                least: seconds,
                greatest: self.greatest,
            }
        } else if self.greatest < seconds {
            OffsetRange {
                edge: self.edge,
                least: self.least,
                greatest: seconds,
            }
        } else {
            self
        }
    }
}

// The range of the offsets of `rule` and the offset `last`.
fn offsets_with(rule: posix::TimeZone, last: i32, edge: i64) -> OffsetRange
    ensures edge { result.edge ≡ edge }
    ensures rule { HasOffsets rule result }
    ensures last { IsAmongOffsets result last }
{
    let standard = at_one_offset(edge, rule.std_offset.seconds).with(last);
    match rule.dst {
        Some(dst) => standard.with(dst.offset.seconds),
        None => standard,
    }
}

// The offset range of a table. After the last transition it has that transition's offset and the
// offsets of the table's rule. Without a rule the edge is the end of the range of civil seconds, so
// nothing is past it. Without a transition the edge is the beginning.
fn offset_range_in(table: &jiff_tz::Tzif) -> OffsetRange
    ensures { IsOffsetRange (Tzif table.entry) result }
{
    let Some(rule) = table.posix_tz() else {
        return at_one_offset(SECONDS, 0);
    };
    let transitions = table.transitions();
    if transitions.is_empty() {
        return offsets_with(rule, rule.std_offset.seconds, 0);
    }
    let last: Transition = transitions[transitions.len() - 1];
    offsets_with(rule, last.after.offset.seconds, last.civil_end())
}

/// The offset range of `zone`.
pub(crate) fn offset_range_of(zone: &TimeZone<'_>) -> OffsetRange
    ensures { IsOffsetRange (plain_zone zone.now) result }
{
    match zone.to_plain() {
        jiff_tz::TimeZone::UTC | jiff_tz::TimeZone::Unknown => at_one_offset(0, 0),
        jiff_tz::TimeZone::Fixed(offset) => at_one_offset(0, offset.seconds),
        jiff_tz::TimeZone::Posix(rule) => offsets_with(rule, rule.std_offset.seconds, 0),
        jiff_tz::TimeZone::Tzif(table) => offset_range_in(table),
    }
}
