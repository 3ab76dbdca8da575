//! What a walk goes over: seven sets and a zone, borrowed or its own.

ghost use Rattle.std.specs.Prelude.{◌≡◌};
ghost use Rattle.cron_units.specs.Sets.{Sets};
ghost use Rattle.jiff.specs.Words.{plain_zone};
ghost use Rattle.jiff_tz.specs.declared.timezone.TimeZone as plain;

use cron_units::fields::ScheduleFields;
use jiff::tz::TimeZone;

/// Seven sets and a zone.
pub trait Inputs: Drop {
    /// The sets, as contracts see them.
    ghost sets: { Self → Sets };

    /// The zone, as contracts see it.
    ghost zone: { Self → plain.TimeZone };

    /// The sets.
    fn fields(&self) -> &ScheduleFields
        ensures { result.now ≡ sets self.now };

    /// The zone.
    fn zone(&self) -> &TimeZone<'_>
        ensures { plain_zone result.now ≡ zone self.now };
}

/// The sets of a schedule and a zone, borrowed by a walk.
#[derive(Drop)]
pub struct Borrowed<'a> {
    pub(crate) fields: &'a ScheduleFields,
    pub(crate) zone: &'a TimeZone<'a>,
}

impl<'a> Inputs for Borrowed<'a> {
    ghost sets = { λ c. c.fields.now };

    ghost zone = { λ c. plain_zone c.zone.now };

    #[inline(always)]
    fn fields(&self) -> &ScheduleFields {
        self.fields
    }

    #[inline(always)]
    fn zone(&self) -> &TimeZone<'_> {
        self.zone
    }
}

/// Sets and a zone that a walk owns.
#[derive(Drop)]
pub struct Owned<'z> {
    pub(crate) fields: ScheduleFields,
    pub(crate) zone: TimeZone<'z>,
}

impl<'z> Inputs for Owned<'z> {
    ghost sets = { λ c. c.fields };

    ghost zone = { λ c. plain_zone c.zone };

    #[inline(always)]
    fn fields(&self) -> &ScheduleFields {
        &self.fields
    }

    #[inline(always)]
    fn zone(&self) -> &TimeZone<'_> {
        &self.zone
    }
}
