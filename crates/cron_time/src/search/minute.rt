//! The minute where a search is, in its parts. The search goes on from there without a division.
ghost use Rattle.std.specs.Prelude.{◌≡◌, ◌+◌, ◌*◌, ◌/◌, ◌%◌, ◌<◌, true, pos, IfSome, option_map};
ghost use Rattle.cron_units.specs.Nearest.{IsNearest};
ghost use Rattle.cron_units.specs.Units.{contains};
ghost use Rattle.cron_moments.specs.Civil.{days_in_range, seconds_in_range};
ghost use Rattle.cron_time.specs.Search.Inner.Minutes.{IsNextInDay, matches_minute};
ghost use Rattle.cron_time.specs.Search.Inner.Numbers.{beyond, matches_second};
ghost use Rattle.cron_time.specs.Search.Inner.Questions.{outermost};

use crate::search::members::Members;
use crate::search::neighbours::{Hours, Minutes, Neighbours, Seconds, nearest_past};
use crate::search::ways::extreme;
use cron_moments::civil::SECONDS_PER_DAY;
use cron_units::fields::ScheduleFields;
use cron_units::way::Way;

/// A minute: its first civil second, and the parts of that. Days are counted from 1970-01-01.
#[derive(Clone, Copy)]
pub struct Minute {
    first: u32,
    day: u32,
    hour: u32,
    minute: u32,
    ghost in_range: { day < days_in_range },
    ghost of_day: { hour < 24 },
    ghost of_hour: { minute < 60 },
    ghost starts: { first ≡ day * 86_400 + (hour * 60 + minute) * 60 },
}

impl Minute {
    /// The first minute of 1970.
    pub fn epoch() -> Minute {
        Minute {
            first: 0,
            day: 0,
            hour: 0,
            minute: 0,
        }
    }

    // The minute with these parts.
    #[inline(always)]
    fn of(day: u32, hour: u32, minute: u32) -> Minute
        requires day { day < days_in_range }
        requires hour { hour < 24 }
        requires minute { minute < 60 }
        ensures day { result.day ≡ day }
        ensures hour { result.hour ≡ hour }
        ensures minute { result.minute ≡ minute }
    {
        Minute {
            first: day * SECONDS_PER_DAY + (hour * 60 + minute) * 60,
            day,
            hour,
            minute,
        }
    }

    /// The minute of a civil second.
    pub(crate) fn around(second: u32) -> Minute
        requires { second < seconds_in_range }
        ensures { result.first ≡ second / 60 * 60 }
    {
        let time = second % SECONDS_PER_DAY;
        Minute::of(second / SECONDS_PER_DAY, time / 3600, time / 60 % 60)
    }

    /// Goes to `day`, to the minute of its first time in the sets in the direction `way`, and
    /// returns that time in seconds since midnight. `None`, and unchanged, if the sets have no
    /// time.
    #[inline(always)]
    pub(crate) fn enter_day(&mut self, members: &Members<'_>, way: Way, day: u32) -> Option<u32>
        requires { day < days_in_range }
        ensures nearest { IsNearest way
            (matches_second members.now)
            (pos (outermost way 86_400))
            result }
        ensures bound { IfSome result (λ n. n < 86_400) }
    {
        let hour = Hours::nearest(members, way, extreme(way, 24))?;
        let minute = Minutes::nearest(members, way, extreme(way, 60))?;
        let second = Seconds::nearest(members, way, extreme(way, 60))?;
        *self = Minute::of(day, hour, minute);
        Some((hour * 60 + minute) * 60 + second)
    }

    /// The number of its day, counted from 1970-01-01.
    #[inline(always)]
    pub(crate) fn day(&self) -> u32
        ensures { result ≡ self.now.day }
    {
        self.day
    }

    /// The place of `second` among the civil seconds of the minute, or `None` if it isn't one of
    /// them.
    #[inline(always)]
    pub(crate) fn place_of(&self, second: u32) -> Option<u32>
        ensures { IfSome result (λ k. (k < 60) × (second ≡ self.now.first + k)) }
    {
        let place = second.wrapping_sub(self.first);
        if place >= 60 {
            return None;
        }
        Some(place)
    }

    // The nearest minute of the same day past this one that lies in the sets, or `None` if the day
    // has none. The hour of this minute lies in its set.
    #[inline(always)]
    fn past(&self, members: &Members<'_>, way: Way) -> Option<Minute>
        requires { contains members.now.hours self.now.hour ≡ true }
        ensures nearest { IsNearest way (matches_minute members.now)
            (beyond way (self.now.hour * 60 + self.now.minute))
            (option_map (λ m. m.hour * 60 + m.minute) result) }
        ensures day { IfSome result (λ m. m.day ≡ self.now.day) }
    {
        if let Some(minute) = nearest_past::<Minutes>(members, way, self.minute) {
            return Some(Minute::of(self.day, self.hour, minute));
        }
        let hour = nearest_past::<Hours>(members, way, self.hour)?;
        let minute = Minutes::nearest(members, way, extreme(way, 60))?;
        Some(Minute::of(self.day, hour, minute))
    }

    /// The nearest civil second of the day whose time lies in the sets, past the one at `place` of
    /// the minute. Sets `self` to the minute of the result. `None`, and unchanged, if the day has
    /// none.
    #[inline(always)]
    pub(crate) fn past_in_day(&mut self, members: &Members<'_>, way: Way, place: u32) -> Option<u32>
        requires place { place < 60 }
        requires matching { matches_second members.now ((self.old.first + place) % 86_400) ≡ true }
        ensures next { IsNextInDay way members.now (self.old.first + place) result }
        ensures day { self.new.day ≡ self.old.day }
    {
        if let Some(next) = nearest_past::<Seconds>(members, way, place) {
            return Some(self.first + next);
        }
        let minute = self.past(members, way)?;
        let next = Seconds::nearest(members, way, extreme(way, 60))?;
        *self = minute;
        Some(minute.first + next)
    }
}
