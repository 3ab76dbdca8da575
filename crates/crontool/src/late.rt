//! The subcommand `late`, which says whether a fire was missed.

use clap::ArgMatches;
use cron_answers::late::{self, Request};
use cron_plans::plan::Plan;
use cron_replies::status::Status;
use cron_writer::watched::Watched;
use cron_zones::machine::MachineFiles;
use crontool_machine::choices::{changes_of, form_of};
use crontool_machine::machine::{Surroundings, complain};
use crontool_machine::plans::Planning;
use std::io;

fn request_of<'a>(words: &ArgMatches<'a>) -> Option<Request<'a>> {
    Some(Request {
        expression: words.get_str("EXPRESSION")?,
        quartz: words.get_flag("quartz"),
        zone: words.get_str("zone")?,
        last: words.get_str("last")?,
        grace: words.get_one::<u32>("grace")?,
        changes: changes_of(words),
        plan: None,
        form: form_of(words),
    })
}

// Answers a request with the machine's clock, zones and streams.
fn answer_here(rt: &HostRuntime, request: &Request<'_>, around: &Surroundings) -> Status {
    let mut out = Watched::new(io::writer(rt));
    let mut complaints = Watched::new(rt.stderr());
    late::answer(
        rt.alloc(),
        request,
        around.now,
        &around.places(),
        &mut MachineFiles(rt),
        &mut out,
        &mut complaints,
    )
}

// Answers a request by a plan.
fn answer_by<'x>(
    rt: &HostRuntime,
    request: Request<'x>,
    plan: Option<Plan<'x>>,
    around: &Surroundings,
) -> Status {
    answer_here(rt, &Request { plan, ..request }, around)
}

// Answers a request by the plan of the words. `Err` has the status of the subcommand if the clock,
// TZ, TZDIR or a file can't be read, or if a word is wrong.
fn answer_request<'a>(
    rt: &HostRuntime,
    words: &ArgMatches<'a>,
    request: Request<'a>,
) -> Result<Status, Status> {
    let planning = Planning::of(rt, words, "last-day")?;
    let around = Surroundings::of(rt)?;
    Ok(answer_by(rt, request, planning.plan(), &around))
}

/// Carries out the subcommand `late`, and returns its status.
pub(crate) fn answer(rt: &HostRuntime, words: &ArgMatches<'_>) -> Status {
    match request_of(words) {
        Some(request) => match answer_request(rt, words, request) {
            Ok(status) | Err(status) => status,
        },
        None => complain(rt, "a word is missing", Status::WrongWords),
    }
}
