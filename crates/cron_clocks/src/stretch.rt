//! Stretches: civil seconds in a row that a zone reads at the same offsets. They are counted from
//! 1970-01-01 00:00:00.
ghost use Rattle.std.specs.Prelude.{◌≡◌, ℕ, ◌≤◌, ◌<◌, pos, ◌≤ℤ◌, ◌<ℤ◌, IsTrue};
ghost use Rattle.jiff.specs.Words.{plain_zone};
ghost use Rattle.jiff_tz.specs.PosixRule as Rule;
ghost use Rattle.jiff_tz.specs.declared.posix.TimeZone.{TimeZone as PlainRule};
ghost use Rattle.jiff_tz.specs.declared.timezone.TimeZone.TheVariants.{Posix, Tzif};
ghost use Rattle.cron_moments.specs.Civil.{civil, seconds_in_range};
ghost use Rattle.cron_moments.specs.Found.{items_if_any};
ghost use Rattle.cron_clocks.specs.Spans.{IsNarrowed, IsToldAlike};
ghost use Rattle.cron_clocks.specs.Seasons.{IsSeason};
ghost use Rattle.cron_clocks.specs.Steady.{IsKnown, IsSteady, IsToldBy, readings_at, whole_range};

use crate::rule::SpanOffsets;
use crate::season::{Season, offsets_by_rule};
use crate::table::table_offsets;
use cron_moments::civil::SECONDS;
use cron_moments::moment::moment_numbered;
use cron_moments::readings::Found;
use jiff::tz::{Offset, TimeZone};
use jiff_tz::posix;

/// Civil seconds from `first` up to `end` that are all read at the same offsets: at none in a gap,
/// at two in a fold, and otherwise at one. In a fold `earlier` is the offset before the transition,
/// and `later` the offset after it.
#[derive(Clone, Copy)]
pub struct Stretch {
    /// The first civil second.
    pub first: u32,
    /// The civil second after the last.
    pub end: u32,
    /// The offset of the only reading, or of the earlier one; `None` in a gap.
    pub earlier: Option<Offset>,
    /// The offset of the later reading; `None` outside of a fold.
    pub later: Option<Offset>,
}

// The stretch of the whole range, 1970 to 2100, at one offset.
fn whole(offset: Offset) -> Stretch
    ensures { result ≡ whole_range offset }
{
    Stretch {
        first: 0,
        end: SECONDS as u32,
        earlier: Some(offset),
        later: None,
    }
}

/// The stretch that `told` describes: the civil seconds around `second` that a rule reads at the
/// same offsets.
pub(crate) fn rule_stretch(rule: posix::TimeZone, second: u32, told: SpanOffsets) -> Stretch
    requires range { second < seconds_in_range }
    requires alike { IsToldAlike rule second told.span.first told.span.end }
    requires low { told.span.first ≤ℤ pos second }
    requires high { pos second <ℤ told.span.end }
    requires narrowed { IsNarrowed (pos 0) (pos seconds_in_range) told.span.first told.span.end }
    requires told { IsToldBy (Rule.ambiguous_at rule (civil second)) told.earlier told.later }
    ensures steady { IsSteady (Posix rule) result }
    ensures low { result.first ≤ second }
    ensures high { second < result.end }
{
    Stretch {
        first: told.span.first as u32,
        end: told.span.end as u32,
        earlier: told.earlier,
        later: told.later,
    }
}

/// The stretch of a season: its civil seconds are all read at its offset.
pub(crate) fn season_stretch(season: Season) -> Stretch
    ensures { (rule : PlainRule) (n : ℕ) → IsSeason rule n season.first season.end season.offset
        → IsKnown (Posix rule) result }
{
    Stretch {
        first: season.first,
        end: season.end,
        earlier: Some(season.offset),
        later: None,
    }
}

// The stretch around `second`: civil seconds that a file's table reads at the same offsets.
fn between_rows(table: &jiff_tz::Tzif, second: u32) -> Stretch
    requires { second < seconds_in_range }
    ensures steady { IsSteady (Tzif table.entry) result }
    ensures low { result.first ≤ second }
    ensures high { second < result.end }
{
    let told = table_offsets(table, second);
    Stretch {
        first: told.span.first as u32,
        end: told.span.end as u32,
        earlier: told.earlier,
        later: told.later,
    }
}

impl Stretch {
    /// The stretch without any civil second.
    #[inline(always)]
    pub fn empty() -> Stretch
        ensures { result.end ≡ 0 }
    {
        Stretch {
            first: 0,
            end: 0,
            earlier: None,
            later: None,
        }
    }

    /// Whether the civil second lies in the stretch.
    #[inline(always)]
    pub fn has(&self, second: u32) -> bool
        ensures { IsTrue result → (self.now.first ≤ second) × (second < self.now.end) }
    {
        self.first <= second && second < self.end
    }

    /// The readings of a civil second at the offsets of the stretch, where it must lie. `None` in a
    /// gap.
    #[inline(always)]
    pub fn readings(&self, second: u32) -> Option<Found>
        ensures { items_if_any result ≡ readings_at second self.now.earlier self.now.later }
    {
        let earlier = self.earlier?;
        let first = moment_numbered(second, earlier);
        let second = match self.later {
            Some(later) => Some(moment_numbered(second, later)),
            None => None,
        };
        Some(Found { first, second })
    }

    /// A stretch with `second` in it. It is all of the range in a zone with one offset, and else
    /// civil seconds between two transitions of a rule or of a file's table.
    #[inline(never)]
    pub fn at(zone: &TimeZone<'_>, second: u32) -> Stretch
        requires { second < seconds_in_range }
        ensures steady { IsSteady (plain_zone zone.now) result }
        ensures low { result.first ≤ second }
        ensures high { second < result.end }
    {
        match zone.to_plain() {
            jiff_tz::TimeZone::UTC | jiff_tz::TimeZone::Unknown => whole(Offset::UTC),
            jiff_tz::TimeZone::Fixed(offset) => whole(Offset::from_plain(offset)),
            jiff_tz::TimeZone::Posix(rule) => rule_stretch(
                rule,
                second,
                offsets_by_rule(rule, second),
            ),
            jiff_tz::TimeZone::Tzif(table) => between_rows(table, second),
        }
    }
}
