//! Rules of zones: whether a zone's look-ups of an instant and of a civil second agree, and whether
//! `cron_clocks` and `jiff` give the same. They are compared at each second around transitions and
//! ends of stretches. A stretch is civil seconds in a row that a zone reads at the same offsets.

use anyhow::Result;
use cron_clocks::clock::shown_at;
use cron_clocks::lookups_agree;
use cron_clocks::stretch::Stretch;
use cron_moments::civil::{SECONDS, civil_number};
use cron_moments::readings::readings_of;
use cron_test_rows::{Row, zone_named};
use jiff::Timestamp;
use jiff::tz::TimeZone;

/// Replays a row, which has a zone, and whether its look-ups of an instant and of a civil second
/// agree.
pub(crate) fn ask_agreement(row: &mut Row<'_>) -> Result<()> {
    let zone = zone_named(row.cell(), &None)?;
    Ok(row.add("", &lookups_agree(&zone))?)
}

/// The starts of the compared parts of the timeline, in seconds since 1970: in 1970, in December
/// 1999, in December 2023, and in 2098. Transitions of each rule follow each of them.
const STARTS: [i64; 4] = [0, 945_000_000, 1_701_388_800, 4_039_372_800];

/// The new years of 1971, 2000, 2024 and 2100, in seconds since 1970.
const NEW_YEARS: [i64; 4] = [31_536_000, 946_684_800, 1_704_067_200, 4_102_444_800];

/// The number of seconds that are compared on either side of a transition. The next constant is the
/// number on either side of a stretch's end.
const AROUND: i64 = 1_900;

const NARROW: i64 = 3;

/// The number of compared transitions, and the number of seconds where `cron_clocks` and `jiff`
/// differ.
#[derive(Clone, Copy)]
struct Compared {
    transitions: u64,
    differences: u64,
}

impl Compared {
    fn add(&mut self, are_same: bool) {
        self.differences = self.differences.saturating_add(u64::from(!are_same));
    }

    /// Compares what a clock shows at each second from `around` seconds before `instant` on, up to
    /// `around` seconds after it, the last one excluded.
    fn add_instants(&mut self, zone: &TimeZone<'_>, instant: i64, around: i64) -> Result<()> {
        for second in instant.saturating_sub(around)..instant.saturating_add(around) {
            let at = Timestamp::from_second(second)?;
            let mut stretch = Stretch::empty();
            let shown = shown_at(zone, at, &mut stretch);
            self.add(shown == civil_number(zone.to_datetime(at)));
        }
        Ok(())
    }

    /// Compares the readings of each civil second from `around` seconds before `civil` on, up to
    /// `around` seconds after it, the last one excluded.
    fn add_civil_seconds(&mut self, zone: &TimeZone<'_>, civil: i64, around: i64) {
        let (first, end) = (civil.saturating_sub(around), civil.saturating_add(around));
        for second in first.max(0)..end.min(SECONDS) {
            if let Ok(second) = u32::try_from(second) {
                let readings = Stretch::at(zone, second).readings(second);
                self.add(readings == readings_of(zone, second));
            }
        }
    }

    /// Compares the seconds around `instant`, and around the civil seconds that the clock shows at
    /// it and one second before it.
    fn add_around(&mut self, zone: &TimeZone<'_>, instant: i64) -> Result<()> {
        let before = Timestamp::from_second(instant.saturating_sub(1))?;
        let at = Timestamp::from_second(instant)?;
        self.add_instants(zone, instant, AROUND)?;
        self.add_civil_seconds(zone, civil_number(zone.to_datetime(before)), AROUND);
        self.add_civil_seconds(zone, civil_number(zone.to_datetime(at)), AROUND);
        Ok(())
    }

    /// Compares the seconds around the first three transitions after `start`.
    fn add_transitions(&mut self, zone: &TimeZone<'_>, start: i64) -> Result<()> {
        for transition in zone.following(Timestamp::from_second(start)?).take(3) {
            self.add_around(zone, transition.timestamp().as_second())?;
            self.transitions = self.transitions.saturating_add(1);
        }
        Ok(())
    }

    /// Compares the seconds around the ends of up to 24 stretches, one after another from the civil
    /// second `start` on. If a stretch ends without a transition, `cron_clocks` looks up the next
    /// second in another way.
    fn add_stretches(&mut self, zone: &TimeZone<'_>, start: i64) -> Result<()> {
        let mut second = u32::try_from(start)?;
        for _ in 0..24 {
            if i64::from(second) >= SECONDS {
                break;
            }
            second = Stretch::at(zone, second).end;
            self.add_instants(zone, i64::from(second), NARROW)?;
            self.add_civil_seconds(zone, i64::from(second), NARROW);
        }
        Ok(())
    }
}

/// Replays a row, which has a rule. Compared are the seconds around three transitions after each of
/// four instants, around four new years, and around the ends of stretches. The answer has the
/// number of transitions, how many seconds differ around these and the new years, and how many
/// differ around the ends.
pub(crate) fn ask(row: &mut Row<'_>) -> Result<()> {
    let zone = TimeZone::posix(row.cell())?;
    let mut around = Compared {
        transitions: 0,
        differences: 0,
    };
    let mut ends = around;
    for start in STARTS {
        around.add_transitions(&zone, start)?;
        ends.add_stretches(&zone, start)?;
    }
    for year in NEW_YEARS {
        around.add_around(&zone, year)?;
    }
    row.add("", &around.transitions)?;
    row.add(", differ ", &around.differences)?;
    Ok(row.add(", differ ", &ends.differences)?)
}
