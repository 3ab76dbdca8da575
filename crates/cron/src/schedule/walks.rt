//! Functions that begin a walk over a schedule.

ghost use Rattle.std.specs.Prelude.{◌≡◌, IfOk, IsOk, MatchOption};
ghost use Rattle.jiff.specs.Words.{plain_zone};
ghost use Rattle.cron_time.specs.Walk.Cursor.{Start};
ghost use Rattle.cron_time.specs.Walk.Resume.{IsAbsent, IsResumed};

use super::inputs::{Borrowed, Owned};
use super::walk::Walker;
use super::{Moment, OwnedScheduleIterator, Schedule, ScheduleIterator};
use cron_time::walk::resume::resume;
use jiff::Timestamp;
use jiff::tz::TimeZone;
use std::alloc::AllocError;

impl Schedule {
    /// A walk whose cursor is at `start`. Its first `next` returns the first item at or after the
    /// civil second that a clock in the zone shows one second after `start`. Its first `next_back`
    /// returns the last item up to the civil second that a clock shows at `start`, if `start` has a
    /// fraction of a second. Else it returns the last item up to the civil second that a clock
    /// shows one second before `start`.
    ///
    /// In a fold that civil second comes twice. So a walk that begins there may leave out items
    /// after `start`, or return `start` itself or an instant before it, and likewise backwards. In
    /// Chicago on 2022-11-06 `0 30 1 * * *` from 06:30Z leaves out 07:30Z, and `59 59 1 * * *` from
    /// 06:59:59Z returns 06:59:59Z. A loop that begins a new walk at each instant loses fires by
    /// this: a scheduler searches by instants (`cron_fires`). Nothing is left out by one walk that
    /// began outside a fold, or by one that [`Schedule::resume`] makes from its last item. In a
    /// fold its instants step back: 06:00Z, 07:00Z, 06:30Z, 07:30Z.
    ///
    /// ```text
    /// // `0 30 1 * * *` in Chicago, from 2022-11-05T12:00:00Z
    /// let mut walk = schedule.after(start, &zone);
    /// walk.next();      // 2022-11-06 01:30:00 -05:00
    /// walk.next();      // 2022-11-06 01:30:00 -06:00
    /// walk.next_back(); // 2022-11-06 01:30:00 -05:00
    /// ```
    pub fn after<'a>(&'a self, start: Timestamp, zone: &'a TimeZone<'a>) -> ScheduleIterator<'a>
        ensures sets { result.sets ≡ self.now.sets }
        ensures zone { result.zone ≡ plain_zone zone.now }
        ensures cursor { result.cursor ≡ Start start.nanosecond }
    {
        let fields = self.fields();
        Walker::begin(Borrowed { fields, zone }, start)
    }

    /// The walk of [`Schedule::after`] from the present instant `now`, with the same behaviour in a
    /// fold. An item at the very second of `now` isn't returned, except in a fold.
    pub fn upcoming<'a>(&'a self, now: Timestamp, zone: &'a TimeZone<'a>) -> ScheduleIterator<'a>
        ensures sets { result.sets ≡ self.now.sets }
        ensures zone { result.zone ≡ plain_zone zone.now }
        ensures cursor { result.cursor ≡ Start now.nanosecond }
    {
        self.after(now, zone)
    }

    /// A walk whose cursor is at `item`, as after the call that returned it. Its `next` returns the
    /// following item, its `next_back` the one before, also in a fold. `None` if `item` is no item
    /// of this schedule in this zone. It takes no memory.
    pub fn resume<'a>(
        &'a self,
        item: &Moment,
        zone: &'a TimeZone<'a>,
    ) -> Option<ScheduleIterator<'a>>
        ensures { MatchOption result
            (IsAbsent self.now.sets (plain_zone zone.now) item.now)
            (IsResumed self.now.sets (plain_zone zone.now) item.now) }
    {
        let state = resume(self.fields(), zone, item)?;
        let fields = self.fields();
        Some(Walker::at(Borrowed { fields, zone }, state))
    }

    /// The walk of [`Schedule::after`] that owns a copy of the sets, and the zone. It takes no
    /// memory, so it never fails.
    pub fn after_owned<'z>(
        &self,
        start: Timestamp,
        zone: TimeZone<'z>,
    ) -> Result<OwnedScheduleIterator<'z>, AllocError>
        ensures sets { IfOk result (λ walk. walk.sets ≡ self.now.sets) }
        ensures zone { IfOk result (λ walk. walk.zone ≡ plain_zone zone.entry) }
        ensures cursor { IfOk result (λ walk. walk.cursor ≡ Start start.nanosecond) }
        ensures succeeds { IsOk result }
    {
        let fields = *self.fields();
        Ok(Walker::begin(Owned { fields, zone }, start))
    }

    /// [`Schedule::after_owned`] from the present instant.
    pub fn upcoming_owned<'z>(
        &self,
        now: Timestamp,
        zone: TimeZone<'z>,
    ) -> Result<OwnedScheduleIterator<'z>, AllocError>
        ensures sets { IfOk result (λ walk. walk.sets ≡ self.now.sets) }
        ensures zone { IfOk result (λ walk. walk.zone ≡ plain_zone zone.entry) }
        ensures cursor { IfOk result (λ walk. walk.cursor ≡ Start now.nanosecond) }
        ensures succeeds { IsOk result }
    {
        self.after_owned(now, zone)
    }
}

impl<'z> Walker<Owned<'z>> {
    /// A walk over the sets of `schedule`, which it owns, with its cursor at `start`.
    pub fn new(
        schedule: Schedule,
        start: Timestamp,
        zone: TimeZone<'z>,
    ) -> OwnedScheduleIterator<'z>
        ensures sets { result.sets ≡ schedule.sets }
        ensures zone { result.zone ≡ plain_zone zone.entry }
        ensures cursor { result.cursor ≡ Start start.nanosecond }
    {
        let fields = schedule.into_fields();
        Walker::begin(Owned { fields, zone }, start)
    }
}
