//! The shifts of a rota as a list, for a calendar of them.

ghost use Rattle.std.specs.Prelude.{◌≡◌, ◌<◌, ◌^◌, IfOk, MatchResult, length, true};
ghost use Rattle.jiff.specs.Words.{plain_zone};
ghost use Rattle.cron_answers.specs.Answers.{given};
ghost use Rattle.cron_answers.specs.Expressions.{changes_by, schedules_of};
ghost use Rattle.cron_rotas.specs.Rotas.{is_rota, shifts_between};
ghost use Rattle.cron_stretches.specs.Fires.{second_of};
ghost use Rattle.cron_rota_answers.specs.Gathering.{HasShifts, shifts_asked};
ghost use Rattle.cron_rota_answers.specs.People.{texts};
ghost use Rattle.cron_rota_answers.specs.Reports.{duty_of, handovers_by};
ghost use Rattle.cron_rota_answers.specs.RotaAnswers.{IsRotaTrouble};

use crate::plan::{Plan, plan_of};
use crate::report::{Asked, Duty, rota_of};
use crate::request::Request;
use crate::trouble::RotaTrouble;
use cron_answers::expression::Expression;
use cron_answers::subject::subject_of;
use cron_answers::trouble::Trouble;
use cron_fires::{AsShown, CivilSeconds, ClockChanges, Once, Rule, Union};
use cron_rotas::rota::Rota;
use cron_stretches::stretch::Stretch;
use cron_zones::files::ZoneFiles;
use cron_zones::open::Places;
use jiff::Timestamp;
use jiff::tz::TimeZone;
use std::alloc::{AllocError, Global};

/// Shifts, and the names of the people. The `value` of a shift is the place of a name.
#[derive(Drop)]
pub struct Roster<'a> {
    pub names: Vec<&'a str>,
    pub shifts: Vec<Stretch<u32>>,
}

// The shifts between two instants.
fn shifts_of<S: CivilSeconds, R: Rule>(
    alloc: Global,
    rota: &Rota<'_, S, R>,
    from: Timestamp,
    to: Timestamp,
) -> Result<Vec<Stretch<u32>>, AllocError>
    ensures { IfOk result (λ list. list.items
        ≡ shifts_between rota.now (second_of from.nanosecond) (second_of to.nanosecond)) }
{
    rota.shifts(from, to).collect(alloc)
}

// The shifts that are wanted. There are none if the question is about an instant.
fn gather<S: CivilSeconds, R: Rule>(
    alloc: Global,
    rota: &Rota<'_, S, R>,
    asked: &Asked,
) -> Result<Vec<Stretch<u32>>, AllocError>
    ensures { IfOk result (λ list. list.items ≡ shifts_asked asked.now rota.now) }
{
    match *asked {
        Asked::Between(from, to) => shifts_of(alloc, rota, from, to),
        Asked::At(_) => Ok(Vec::new(alloc)),
    }
}

// The shifts of a rota whose handovers are the fires of an expression, by the rule `changes`.
fn gather_by(
    alloc: Global,
    duty: &Duty<'_>,
    changes: ClockChanges,
    expression: &Expression,
    asked: &Asked,
    zone: &TimeZone<'_>,
) -> Result<Vec<Stretch<u32>>, AllocError>
    requires { is_rota duty.now.people duty.now.swaps.now ≡ true }
    ensures { IfOk result (λ list. list.items ≡ shifts_asked asked.now
        (duty_of duty.now.people duty.now.start.nanosecond
        (handovers_by changes (schedules_of expression.now) (plain_zone zone.now))
        duty.now.swaps.now)) }
{
    let handovers = Union {
        schedules: expression.as_slice(),
    };
    match changes {
        ClockChanges::AsShown => {
            let rota = rota_of::<_, AsShown<TimeZone<'_>>>(duty, &handovers, zone);
            gather(alloc, &rota, asked)
        }
        ClockChanges::Once => {
            let rota = rota_of::<_, Once<TimeZone<'_>>>(duty, &handovers, zone);
            gather(alloc, &rota, asked)
        }
    }
}

// The shifts of the rota of a plan. Its handovers are the fires of an expression, by the rule
// `chosen`, or by the expression's own if that is `None`.
fn gather_in(
    alloc: Global,
    plan: &Plan<'_>,
    expression: &Expression,
    chosen: Option<ClockChanges>,
    zone: &TimeZone<'_>,
) -> Result<Vec<Stretch<u32>>, AllocError>
    requires few { length plan.now.names.items < 2 ^ 32 }
    requires rota { is_rota (length plan.now.names.items) plan.now.swaps.items ≡ true }
    ensures { IfOk result (λ list. list.items ≡ shifts_asked plan.now.asked
        (duty_of (length plan.now.names.items) plan.now.start.nanosecond
        (handovers_by (changes_by chosen expression.now) (schedules_of expression.now)
        (plain_zone zone.now)) plan.now.swaps.items)) }
{
    let duty = Duty {
        people: plan.names.len() as u32,
        start: plan.start,
        swaps: plan.swaps.as_slice(),
    };
    let changes = expression.changes(chosen);
    gather_by(alloc, &duty, changes, expression, &plan.asked, zone)
}

/// The shifts that a request asks for, whose form doesn't count. There are none if it asks about an
/// instant. `Err` has what [`rota::answer`] would complain of, or says that memory ran out. Zones
/// are searched in `places` and `files`, and at most one file is read.
///
/// [`rota::answer`]: crate::rota::answer
pub fn roster_in<'a, F: ZoneFiles>(
    alloc: Global,
    request: &Request<'a>,
    now: Timestamp,
    places: &Places<'a>,
    files: &mut F,
) -> Result<Roster<'a>, RotaTrouble<'a>>
    ensures { MatchResult result
        (λ roster. HasShifts (given F.reads places.now now.nanosecond) request.now
        files.old (texts roster.names.items) roster.shifts.items files.new)
        (λ trouble. IsRotaTrouble (given F.reads places.now now.nanosecond) request.now
        files.old files.new trouble) }
{
    let (quartz, text) = (request.quartz, request.handover);
    let subject = match subject_of(alloc, quartz, text, request.zone, places, files) {
        Ok(subject) => subject,
        Err(trouble) => return Err(RotaTrouble::Words(trouble)),
    };
    let zone = subject.zone.time_zone();
    let plan = plan_of(alloc, request, &zone, now)?;
    match gather_in(alloc, &plan, &subject.expression, request.changes, &zone) {
        Ok(shifts) => Ok(Roster {
            names: plan.names,
            shifts,
        }),
        Err(_) => Err(RotaTrouble::Words(Trouble::NoMemory)),
    }
}
