//! The subcommand `overlap`, which writes the first civil second that two expressions both match.

use clap::ArgMatches;
use cron_answers::overlap::overlap;
use cron_replies::status::Status;
use cron_writer::watched::Watched;
use crontool_machine::machine::complain;
use crontool_machine::pair::pair_of;
use std::io;

/// Carries out the subcommand `overlap`, and returns its status.
pub(crate) fn answer(rt: &HostRuntime, words: &ArgMatches<'_>) -> Status {
    let Some(pair) = pair_of(words) else {
        return complain(rt, "a word is missing", Status::WrongWords);
    };
    let mut out = Watched::new(io::writer(rt));
    let mut complaints = Watched::new(rt.stderr());
    overlap(rt.alloc(), &pair, &mut out, &mut complaints)
}
