//! The subcommand `oncalendar`, which writes an expression as systemd's `OnCalendar`.

ghost use Rattle.std.specs.Prelude.{◌≡◌, true, IfOk};
ghost use Rattle.std.specs.Option.{ForSome};
ghost use Rattle.cron_oncalendar.specs.Zones.{is_word};

use clap::ArgMatches;
use cron_answers::oncalendar::write_calendar;
use cron_answers::trouble::Trouble;
use cron_oncalendar::lines::is_word;
use cron_replies::status::Status;
use cron_writer::watched::Watched;
use cron_zones::error::ZoneError;
use cron_zones::source::{Source, source_of};
use crontool_machine::machine::{Surroundings, complain, open_zone, say_trouble};
use std::io;

/// The message for a zone that `OnCalendar` can't take.
const NO_NAME: &str = "--zone of oncalendar is UTC, local or a name: OnCalendar takes no rule";

// The zone at the end of each line: `UTC` or the name of a zone, or `None` for `local`. If `zone`
// is a rule or no zone, that is written, and `Err` has the status of the subcommand.
fn name_of<'a>(rt: &HostRuntime, zone: &'a str) -> Result<Option<&'a str>, Status>
    ensures { IfOk result (λ name. ForSome name (λ word. is_word word.now ≡ true)) }
{
    if zone == "local" {
        return Ok(None);
    }
    match source_of(zone, None) {
        Some(Source::Stated(_)) if zone != "UTC" => {
            Err(complain(rt, NO_NAME, Status::WrongWords))
        }
        Some(_) if is_word(zone) => {
            let around = Surroundings::of(rt)?;
            let _opened = open_zone(rt, zone, &around)?;
            Ok(Some(zone))
        }
        _ => Err(say_trouble(rt, &Trouble::Zone(zone, ZoneError::NoZone))),
    }
}

/// Carries out the subcommand `oncalendar`, and returns its status.
pub(crate) fn answer(rt: &HostRuntime, words: &ArgMatches<'_>) -> Status {
    let (Some(text), Some(zone)) = (words.get_str("EXPRESSION"), words.get_str("zone")) else {
        return complain(rt, "a word is missing", Status::WrongWords);
    };
    let zone = match name_of(rt, zone) {
        Ok(zone) => zone,
        Err(status) => return status,
    };
    let mut out = Watched::new(io::writer(rt));
    let mut complaints = Watched::new(rt.stderr());
    let quartz = words.get_flag("quartz");
    write_calendar(rt.alloc(), quartz, text, zone, &mut out, &mut complaints)
}
