//! Answers the subcommand `rota`: lists the shifts of people who take turns on duty, or says who is
//! on duty.

ghost use Rattle.std.specs.Prelude.{◌≡◌, ◌<◌, ◌^◌, ◌||◌, IfOk, false, length, true};
ghost use Rattle.jiff.specs.Words.{plain_zone};
ghost use Rattle.cron_answers.specs.Answers.{given};
ghost use Rattle.cron_answers.specs.Expressions.{changes_by, schedules_of};
ghost use Rattle.cron_replies.specs.Statuses.{is_write_failure, Reports};
ghost use Rattle.cron_rotas.specs.Rotas.{is_rota};
ghost use Rattle.cron_writer.specs.Watching.{has_failed};
ghost use Rattle.cron_rota_answers.specs.People.{texts};
ghost use Rattle.cron_rota_answers.specs.Reports.{IsReport, duty_of, handovers_by};
ghost use Rattle.cron_rota_answers.specs.RotaAnswers.{AnswersRota};

use crate::plan::{Plan, plan_of};
use crate::report::{Duty, Report, Words, report_by};
pub use crate::request::{Request, SwapFile, Which};
use crate::trouble::{RotaTrouble, tell};
use cron_answers::expression::Expression;
use cron_answers::subject::subject_of;
use cron_answers::trouble::Trouble;
use cron_fires::ClockChanges;
use cron_replies::form::Form;
use cron_replies::sending::send_bytes;
use cron_replies::status::Status;
use cron_writer::watchable::Watchable;
use cron_writer::watched::Watched;
use cron_zones::files::ZoneFiles;
use cron_zones::open::Places;
use jiff::Timestamp;
use jiff::tz::TimeZone;
use std::alloc::{AllocError, Global};

// The report on the rota of a plan. Its handovers are the fires of an expression, by the rule
// `chosen`, or by the expression's own if that is `None`.
fn report_in(
    alloc: Global,
    form: Form,
    plan: &Plan<'_>,
    expression: &Expression,
    chosen: Option<ClockChanges>,
    zone: &TimeZone<'_>,
) -> Result<Report, AllocError>
    requires few { length plan.now.names.items < 2 ^ 32 }
    requires rota { is_rota (length plan.now.names.items) plan.now.swaps.items ≡ true }
    ensures { IfOk result (λ report. IsReport form (plain_zone zone.now)
        (texts plan.now.names.items) plan.now.asked
        (duty_of (length plan.now.names.items) plan.now.start.nanosecond
        (handovers_by (changes_by chosen expression.now) (schedules_of expression.now)
        (plain_zone zone.now)) plan.now.swaps.items) report.rows.items report.status) }
{
    let words = Words {
        form,
        names: plan.names.as_slice(),
        zone,
    };
    let duty = Duty {
        people: plan.names.len() as u32,
        start: plan.start,
        swaps: plan.swaps.as_slice(),
    };
    let changes = expression.changes(chosen);
    let schedules = expression.as_slice();
    report_by(alloc, &duty, changes, schedules, &words, &plan.asked)
}

/// Answers a request: writes the shifts, or who is on duty, to `out`, and what is wrong to
/// `complaints`. The status is `No` if no person is on duty at the instant. Zones are searched in
/// `places` and `files`, and at most one file is read. No call of the writers may have failed
/// before.
pub fn answer<F: ZoneFiles, W: Watchable, C: Watchable>(
    alloc: Global,
    request: &Request<'_>,
    now: Timestamp,
    places: &Places<'_>,
    files: &mut F,
    out: &mut Watched<W>,
    complaints: &mut Watched<C>,
) -> Status
    requires out { has_failed out.old ≡ false }
    requires complaints { has_failed complaints.old ≡ false }
    ensures answers { AnswersRota (given F.reads places.now now.nanosecond) request.now
        (Reports W.contents W.writes W.flushes) (Reports C.contents C.writes C.flushes)
        (files.old, out.old, complaints.old) result (files.new, out.new, complaints.new) }
    ensures mark { (has_failed out.new || has_failed complaints.new) ≡ is_write_failure result }
{
    let (quartz, text) = (request.quartz, request.handover);
    let subject = match subject_of(alloc, quartz, text, request.zone, places, files) {
        Ok(subject) => subject,
        Err(trouble) => return tell(alloc, &RotaTrouble::Words(trouble), complaints),
    };
    let (expression, chosen) = (&subject.expression, request.changes);
    let zone = subject.zone.time_zone();
    let plan = match plan_of(alloc, request, &zone, now) {
        Ok(plan) => plan,
        Err(unplanned) => return tell(alloc, &unplanned, complaints),
    };
    match report_in(alloc, request.form, &plan, expression, chosen, &zone) {
        Ok(report) => send_bytes(report.rows.as_slice(), report.status, out),
        Err(_) => tell(alloc, &RotaTrouble::Words(Trouble::NoMemory), complaints),
    }
}
