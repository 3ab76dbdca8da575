//! The subcommand `explain`, which says in words when an expression fires.

use clap::ArgMatches;
use cron_answers::answer::{Request, Which};
use cron_answers::explain::explain;
use cron_looks::Times;
use cron_plans::plan::Plan;
use cron_replies::status::Status;
use cron_writer::watched::Watched;
use cron_zones::machine::MachineFiles;
use crontool_machine::choices::{changes_of, form_of};
use crontool_machine::machine::{Surroundings, complain};
use crontool_machine::plans::Planning;
use std::io;

/// How many fires are listed.
const FIRES: u64 = 5;

fn request_of<'a>(words: &ArgMatches<'a>) -> Option<Request<'a>> {
    Some(Request {
        expression: words.get_str("EXPRESSION")?,
        quartz: words.get_flag("quartz"),
        zone: words.get_str("zone")?,
        which: Which::Next(FIRES, words.get_str("after")?),
        changes: changes_of(words),
        plan: None,
        plan_lines: "",
        form: form_of(words),
        times: Times::Plain,
    })
}

// Explains an expression with the machine's clock, zones and streams.
fn explain_here(rt: &HostRuntime, request: &Request<'_>, around: &Surroundings) -> Status {
    let mut out = Watched::new(io::writer(rt));
    let mut complaints = Watched::new(rt.stderr());
    explain(
        rt.alloc(),
        request,
        around.now,
        &around.places(),
        &mut MachineFiles(rt),
        &mut out,
        &mut complaints,
    )
}

// Explains an expression by a plan. Its lines are `plan_lines`.
fn explain_by<'x>(
    rt: &HostRuntime,
    request: Request<'x>,
    plan: Option<Plan<'x>>,
    plan_lines: &'x str,
    around: &Surroundings,
) -> Status {
    let planned = Request {
        plan,
        plan_lines,
        times: Times::Plain,
        ..request
    };
    explain_here(rt, &planned, around)
}

// Explains an expression by the plan of the words. `Err` has the status of the subcommand if the
// clock, TZ, TZDIR or a file can't be read, or if a word is wrong.
fn explain_words(rt: &HostRuntime, words: &ArgMatches<'_>) -> Result<Status, Status> {
    let planning = Planning::of(rt, words, "last")?;
    let around = Surroundings::of(rt)?;
    let Some(request) = request_of(words) else {
        return Err(complain(rt, "a word is missing", Status::WrongWords));
    };
    let lines = planning.lines();
    Ok(explain_by(rt, request, planning.plan(), lines, &around))
}

/// Carries out the subcommand `explain`, and returns its status.
pub(crate) fn answer(rt: &HostRuntime, words: &ArgMatches<'_>) -> Status {
    match explain_words(rt, words) {
        Ok(status) | Err(status) => status,
    }
}
