//! The nearest number of one unit, or of several units where each carries into the next. A number
//! of several units has an outer part, its quotient by a width, and an inner part, its remainder.
//! The numbers with the same outer part are a block. `None` means that there is none in the
//! direction `way`.
ghost use Rattle.std.specs.Prelude.{◌≡◌, ℕ, ◌+◌, ◌*◌, ◌/◌, ◌%◌, ◌^◌, ◌<◌, ◌≤◌, ◌&&◌, Bool, true, pos, IfSome};
ghost use Rattle.cron_units.specs.Nearest.{IsNearest};
ghost use Rattle.cron_units.specs.Sets.{Sets, AreSets};
ghost use Rattle.cron_units.specs.Units.{contains};
ghost use Rattle.cron_time.specs.Search.Inner.Questions.{AsksFor, AsksPast, outermost};
ghost use Rattle.cron_time.specs.Search.Inner.Numbers.{beyond, beyond_block, matches_rest, matches_second};

use crate::search::counter::{Counter, Uncounted};
use crate::search::members::{Members, Unit};
use crate::search::ways::{entry, extreme, past};
use cron_units::way::Way;

/// Numbers with a search for the nearest one that lies in the sets.
pub(crate) trait Neighbours {
    /// Whether a number lies in the sets.
    ghost passes: { Sets → ℕ → Bool };

    /// How many units the numbers are made of.
    ghost parts: { ℕ };

    /// All numbers in the sets are at least this one, and below `LIMIT`.
    ghost least: { ℕ };

    ghost LIMIT: { ℕ };

    /// The nearest number in the sets from `from` on. `counter` counts the look-ups of a member.
    fn nearest_counted<C: Counter>(
        members: &Members<'_>,
        counter: &mut C,
        way: Way,
        from: u32,
    ) -> Option<u32>
        requires { from + 1 < 2 ^ 32 }
        ensures nearest { IsNearest way (passes members.now) (pos from) result }
        ensures bound { IfSome result (λ n. (least ≤ n) × (n < LIMIT)) }
        ensures questions { AreSets members.now
            → AsksFor C.Counts parts result counter.old counter.new }
        ensures outermost { AreSets members.now
            → from ≡ outermost way LIMIT
            → C.Counts parts counter.old counter.new };

    /// The nearest number in the sets from `from` on.
    #[inline(always)]
    final fn nearest(members: &Members<'_>, way: Way, from: u32) -> Option<u32>
        requires { from + 1 < 2 ^ 32 }
        ensures nearest { IsNearest way (passes members.now) (pos from) result }
        ensures bound { IfSome result (λ n. (least ≤ n) × (n < LIMIT)) }
    {
        Self::nearest_counted(members, &mut Uncounted, way, from)
    }

    /// The sets of an expression hold at least one such number.
    ghost filled: { (s : Sets) → AreSets s → (n : ℕ) × (n < LIMIT) × (passes s n ≡ true) };
}

/// The nearest number in the sets past the block `outer`: the nearest outer part, with the first
/// inner part in its block. `width` is the limit of the inner parts.
#[inline(always)]
pub(crate) fn nearest_past_block<O: Neighbours, I: Neighbours, C: Counter>(
    members: &Members<'_>,
    counter: &mut C,
    way: Way,
    width: u32,
    outer: u32,
) -> Option<u32>
    requires unit { O.parts ≡ 1 }
    requires width { width ≡ I.LIMIT }
    requires positive { 0 < I.LIMIT }
    requires fits { (O.LIMIT + 1) * I.LIMIT < 2 ^ 32 }
    requires outer { outer < O.LIMIT }
    ensures nearest { IsNearest way
        (λ n. O.passes members.now (n / I.LIMIT) && I.passes members.now (n % I.LIMIT))
        (beyond_block way I.LIMIT outer)
        result }
    ensures bound { IfSome result (λ n. (O.least * I.LIMIT ≤ n) × (n < O.LIMIT * I.LIMIT)) }
    ensures questions { AreSets members.now
        → AsksPast C.Counts I.parts result counter.old counter.new }
{
    let next = O::nearest_counted(members, counter, way, past(way, outer)?)?;
    let inner = I::nearest_counted(members, counter, way, extreme(way, width))?;
    Some(next * width + inner)
}

/// The nearest number from `from` on whose two parts lie in the sets: its quotient by `width` in
/// those of `O`, and its remainder in those of `I`. `width` is the limit of `I`, as 60 for seconds.
#[inline(always)]
pub(crate) fn nearest_in_parts<O: Neighbours, I: Neighbours, C: Counter>(
    members: &Members<'_>,
    counter: &mut C,
    way: Way,
    width: u32,
    from: u32,
) -> Option<u32>
    requires unit { O.parts ≡ 1 }
    requires width { width ≡ I.LIMIT }
    requires positive { 0 < I.LIMIT }
    requires fits { (O.LIMIT + 1) * I.LIMIT < 2 ^ 32 }
    requires from { from + 1 < 2 ^ 32 }
    ensures nearest { IsNearest way
        (λ n. O.passes members.now (n / I.LIMIT) && I.passes members.now (n % I.LIMIT))
        (pos from)
        result }
    ensures bound { IfSome result (λ n. (O.least * I.LIMIT ≤ n) × (n < O.LIMIT * I.LIMIT)) }
    ensures questions { AreSets members.now
        → AsksFor C.Counts (I.parts + 1) result counter.old counter.new }
    ensures outermost { AreSets members.now
        → from ≡ outermost way (O.LIMIT * I.LIMIT)
        → C.Counts (I.parts + 1) counter.old counter.new }
{
    let (first, rest) = (from / width, from % width);
    let outer = O::nearest_counted(members, counter, way, first)?;
    let start = entry(way, width, first, rest, outer);
    if let Some(inner) = I::nearest_counted(members, counter, way, start) {
        return Some(outer * width + inner);
    }
    nearest_past_block::<O, I, C>(members, counter, way, width, outer)
}

/// The nearest number in the sets past `n`.
#[inline(always)]
pub(crate) fn nearest_past<N: Neighbours>(members: &Members<'_>, way: Way, n: u32) -> Option<u32>
    requires { n + 2 < 2 ^ 32 }
    ensures nearest { IsNearest way (N.passes members.now) (beyond way n) result }
    ensures bound { IfSome result (λ k. (N.least ≤ k) × (k < N.LIMIT)) }
{
    N::nearest(members, way, past(way, n)?)
}

/// The nearest number past `from` whose two parts lie in the sets. The outer part of `from` lies in
/// them. `inner` is the nearest inner part past that of `from`: with it no outer part is looked up.
#[inline(always)]
pub(crate) fn past_in_parts<O: Neighbours, I: Neighbours>(
    members: &Members<'_>,
    way: Way,
    width: u32,
    from: u32,
    inner: Option<u32>,
) -> Option<u32>
    requires unit { O.parts ≡ 1 }
    requires width { width ≡ I.LIMIT }
    requires positive { 0 < I.LIMIT }
    requires fits { (O.LIMIT + 1) * I.LIMIT < 2 ^ 32 }
    requires block { (O.least ≤ from / I.LIMIT) × (from / I.LIMIT < O.LIMIT) }
    requires matching { O.passes members.now (from / I.LIMIT) ≡ true }
    requires inner { IsNearest way (I.passes members.now) (beyond way (from % I.LIMIT)) inner }
    requires inner_bound { IfSome inner (λ n. n < I.LIMIT) }
    ensures nearest { IsNearest way
        (λ n. O.passes members.now (n / I.LIMIT) && I.passes members.now (n % I.LIMIT))
        (beyond way from)
        result }
    ensures bound { IfSome result (λ n. (O.least * I.LIMIT ≤ n) × (n < O.LIMIT * I.LIMIT)) }
{
    let outer = from / width;
    if let Some(rest) = inner {
        return Some(outer * width + rest);
    }
    nearest_past_block::<O, I, Uncounted>(members, &mut Uncounted, way, width, outer)
}

/// The seconds of a minute.
pub(crate) struct Seconds;

impl Neighbours for Seconds {
    ghost use Rattle.cron_time.specs.Search.Inner.Filled.{seconds_filled};

    ghost passes = { λ s. contains s.seconds };

    ghost parts = { 1 };

    ghost least = { 0 };

    ghost LIMIT = { 60 };

    #[inline(always)]
    fn nearest_counted<C: Counter>(
        members: &Members<'_>,
        counter: &mut C,
        way: Way,
        from: u32,
    ) -> Option<u32> {
        counter.count_one();
        members.nearest(Unit::Second, way, from)
    }

    ghost filled = { seconds_filled };
}

/// The minutes of an hour.
pub(crate) struct Minutes;

impl Neighbours for Minutes {
    ghost use Rattle.cron_time.specs.Search.Inner.Filled.{minutes_filled};

    ghost passes = { λ s. contains s.minutes };

    ghost parts = { 1 };

    ghost least = { 0 };

    ghost LIMIT = { 60 };

    #[inline(always)]
    fn nearest_counted<C: Counter>(
        members: &Members<'_>,
        counter: &mut C,
        way: Way,
        from: u32,
    ) -> Option<u32> {
        counter.count_one();
        members.nearest(Unit::Minute, way, from)
    }

    ghost filled = { minutes_filled };
}

/// The hours of a day.
pub(crate) struct Hours;

impl Neighbours for Hours {
    ghost use Rattle.cron_time.specs.Search.Inner.Filled.{hours_filled};

    ghost passes = { λ s. contains s.hours };

    ghost parts = { 1 };

    ghost least = { 0 };

    ghost LIMIT = { 24 };

    #[inline(always)]
    fn nearest_counted<C: Counter>(
        members: &Members<'_>,
        counter: &mut C,
        way: Way,
        from: u32,
    ) -> Option<u32> {
        counter.count_one();
        members.nearest(Unit::Hour, way, from)
    }

    ghost filled = { hours_filled };
}

/// The seconds of an hour.
struct SecondsOfHour;

impl Neighbours for SecondsOfHour {
    ghost use Rattle.cron_time.specs.Search.Inner.Filled.{rest_filled};

    ghost passes = { matches_rest };

    ghost parts = { 2 };

    ghost least = { 0 };

    ghost LIMIT = { 3600 };

    #[inline(always)]
    fn nearest_counted<C: Counter>(
        members: &Members<'_>,
        counter: &mut C,
        way: Way,
        from: u32,
    ) -> Option<u32> {
        nearest_in_parts::<Minutes, Seconds, C>(members, counter, way, 60, from)
    }

    ghost filled = { rest_filled };
}

/// The seconds of a day.
pub(crate) struct TimesOfDay;

impl Neighbours for TimesOfDay {
    ghost use Rattle.cron_time.specs.Search.Inner.Filled.{times_filled};

    ghost passes = { matches_second };

    ghost parts = { 3 };

    ghost least = { 0 };

    ghost LIMIT = { 86_400 };

    #[inline(always)]
    fn nearest_counted<C: Counter>(
        members: &Members<'_>,
        counter: &mut C,
        way: Way,
        from: u32,
    ) -> Option<u32> {
        nearest_in_parts::<Hours, SecondsOfHour, C>(members, counter, way, 3600, from)
    }

    ghost filled = { times_filled };
}

// The nearest second of the hour in the sets past `rest`, which lies in the sets.
#[inline(always)]
fn rest_past(members: &Members<'_>, way: Way, rest: u32) -> Option<u32>
    requires fits { rest < 3600 }
    requires matching { matches_rest members.now rest ≡ true }
    ensures nearest { IsNearest way (matches_rest members.now) (beyond way rest) result }
    ensures bound { IfSome result (λ n. n < 3600) }
{
    let second = nearest_past::<Seconds>(members, way, rest % 60);
    past_in_parts::<Minutes, Seconds>(members, way, 60, rest, second)
}

/// The nearest time of day in the sets past `time`, which lies in the sets: its hour and minute
/// aren't looked up again.
#[inline(always)]
pub(crate) fn time_past(members: &Members<'_>, way: Way, time: u32) -> Option<u32>
    requires fits { time < 86_400 }
    requires matching { matches_second members.now time ≡ true }
    ensures nearest { IsNearest way (matches_second members.now) (beyond way time) result }
    ensures bound { IfSome result (λ n. n < 86_400) }
{
    let rest = rest_past(members, way, time % 3600);
    past_in_parts::<Hours, SecondsOfHour>(members, way, 3600, time, rest)
}
