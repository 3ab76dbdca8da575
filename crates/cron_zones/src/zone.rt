//! A zone that owns its table.

ghost use Rattle.std.specs.Prelude.{◌≡◌};
ghost use Rattle.jiff.specs.Words.{plain_zone};
ghost use Rattle.cron_zones.specs.Zones.{IsTimeZone};

use jiff::tz::{TimeZone, Tzif};

/// A zone with its file's table, if it has one.
#[derive(Debug, Drop)]
pub enum Zone<'a> {
    /// UTC, or the zone of a rule text.
    Stated(TimeZone<'a>),
    /// The zone of a file.
    File(Tzif),
}

impl<'a> Zone<'a> {
    /// The zone, which borrows the table.
    pub fn time_zone(&self) -> TimeZone<'_>
        ensures { IsTimeZone self.now (plain_zone result) }
    {
        match self {
            Zone::Stated(zone) => *zone,
            Zone::File(table) => TimeZone::tzif(table),
        }
    }
}
