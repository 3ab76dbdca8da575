//! Reads the arguments of `rota`, once the zone is opened.

ghost use Rattle.std.specs.Prelude.{◌<◌, ◌^◌, MatchResult, length};
ghost use Rattle.jiff.specs.Words.{plain_zone};
ghost use Rattle.cron_rota_answers.specs.People.{texts};
ghost use Rattle.cron_rota_answers.specs.Plans.{AreNoSwapsOf, AreNoTimes, AreSwapsOf, AreTimes, IsAsked, IsNoPlan, IsNotAsked, IsPlan};
ghost use Rattle.cron_rota_answers.specs.Swaps.{given};

use crate::people::names_of;
use crate::report::Asked;
use crate::request::{Request, SwapFile, Which};
use crate::swaps::swaps_of;
use crate::trouble::RotaTrouble;
use cron_answers::instant::instant_of;
use cron_answers::span::ends_of;
use cron_answers::trouble::Trouble;
use cron_rotas::swap::Swap;
use cron_stretches::fires::{instant_at, whole_second};
use jiff::Timestamp;
use jiff::tz::TimeZone;
use std::alloc::Global;

/// What the arguments of `rota` mean.
#[derive(Drop)]
pub(crate) struct Plan<'a> {
    pub(crate) start: Timestamp,
    pub(crate) asked: Asked,
    pub(crate) names: Vec<&'a str>,
    pub(crate) swaps: Vec<Swap>,
}

// What is asked. `Err` has the first text that is no instant or no span, or says that START comes
// after END.
fn asked_of<'a>(
    which: &Which<'a>,
    zone: &TimeZone<'_>,
    now: Timestamp,
) -> Result<Asked, Trouble<'a>>
    ensures { MatchResult result (IsAsked which.now (plain_zone zone.now) now.nanosecond)
        (IsNotAsked which.now (plain_zone zone.now) now.nanosecond) }
{
    match *which {
        Which::Between(span) => match ends_of(&span, zone, now) {
            Ok(ends) => {
                let first = instant_at(whole_second(ends.0));
                let end = instant_at(whole_second(ends.1));
                Ok(Asked::Between(first, end))
            }
            Err(trouble) => Err(trouble),
        },
        Which::At(at) => match instant_of(at, zone, now) {
            Some(instant) => Ok(Asked::At(instant)),
            None => Err(Trouble::Instant(at)),
        },
    }
}

// The start of the rota, and what is asked. `Err` has the first of the two that is wrong.
fn times_of<'a>(
    request: &Request<'a>,
    zone: &TimeZone<'_>,
    now: Timestamp,
) -> Result<(Timestamp, Asked), Trouble<'a>>
    ensures { MatchResult result
        (λ times. AreTimes request.now (plain_zone zone.now) now.nanosecond
        times.0.nanosecond times.1)
        (AreNoTimes request.now (plain_zone zone.now) now.nanosecond) }
{
    let Some(start) = instant_of(request.from, zone, now) else {
        return Err(Trouble::Instant(request.from));
    };
    match asked_of(&request.which, zone, now) {
        Ok(asked) => Ok((start, asked)),
        Err(trouble) => Err(trouble),
    }
}

// The swaps of a file. There are none if there is no file.
fn swaps_in<'a>(
    alloc: Global,
    file: &Option<SwapFile<'a>>,
    names: &[&str],
    zone: &TimeZone<'_>,
    now: Timestamp,
) -> Result<Vec<Swap>, RotaTrouble<'a>>
    requires { length names.now < 2 ^ 32 }
    ensures { MatchResult result
        (λ swaps. AreSwapsOf (given (texts names.now) (plain_zone zone.now) now.nanosecond)
        file.now swaps.items)
        (AreNoSwapsOf (given (texts names.now) (plain_zone zone.now) now.nanosecond) file.now) }
{
    match *file {
        Some(file) => match swaps_of(alloc, file.bytes, names, zone, now) {
            Ok(swaps) => Ok(swaps),
            Err(error) => Err(RotaTrouble::Swaps(file.name, error)),
        },
        None => Ok(Vec::new(alloc)),
    }
}

/// Reads the arguments of `rota` in a zone. `Err` has the first that is wrong of the start, what is
/// asked, the people, and the file of swaps.
pub(crate) fn plan_of<'a>(
    alloc: Global,
    request: &Request<'a>,
    zone: &TimeZone<'_>,
    now: Timestamp,
) -> Result<Plan<'a>, RotaTrouble<'a>>
    ensures { MatchResult result
        (λ plan. IsPlan request.now (plain_zone zone.now) now.nanosecond
        plan.start.nanosecond plan.asked (texts plan.names.items) plan.swaps.items)
        (IsNoPlan request.now (plain_zone zone.now) now.nanosecond) }
{
    let (start, asked) = match times_of(request, zone, now) {
        Ok(times) => times,
        Err(trouble) => return Err(RotaTrouble::Words(trouble)),
    };
    let names = match names_of(alloc, request.people) {
        Ok(names) => names,
        Err(error) => return Err(RotaTrouble::People(error)),
    };
    match swaps_in(alloc, &request.swaps, names.as_slice(), zone, now) {
        Ok(swaps) => Ok(Plan {
            start,
            asked,
            names,
            swaps,
        }),
        Err(trouble) => Err(trouble),
    }
}
