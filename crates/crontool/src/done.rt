//! The subcommand `done`, which notes a fire in a stamp, a file that `due` reads.

use clap::ArgMatches;
use cron_answers::done::{self, Request};
use cron_notes::machine::MachineStore;
use cron_replies::status::Status;
use cron_writer::watched::Watched;
use crontool_machine::machine::complain;

fn request_of<'a>(words: &ArgMatches<'a>) -> Option<Request<'a>> {
    Some(Request {
        stamp: words.get_str("STAMP")?,
        fire: words.get_str("FIRE")?,
    })
}

/// Carries out the subcommand `done`, and returns its status.
pub(crate) fn answer(rt: &HostRuntime, words: &ArgMatches<'_>) -> Status {
    let Some(request) = request_of(words) else {
        return complain(rt, "a word is missing", Status::WrongWords);
    };
    let mut complaints = Watched::new(rt.stderr());
    done::answer(rt.alloc(), &request, &mut MachineStore(rt), &mut complaints)
}
