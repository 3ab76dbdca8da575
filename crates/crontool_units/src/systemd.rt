//! The subcommand `systemd`, which writes a timer and a service for each entry of a crontab.

ghost use Rattle.std.specs.Prelude.{◌≡◌, true, IfOk};
ghost use Rattle.std.specs.Option.{ForSome};
ghost use Rattle.cron_oncalendar.specs.Zones.{is_word};

use crate::files::{files_of, write_files};
use crate::names::front_of;
use clap::ArgMatches;
use cron_replies::status::Status;
use cron_tab_agenda::TabFile;
use cron_tab_systemd::{Asked, LineMade, Made, list_made, zone_word};
use crontool_machine::choices::kind_of;
use crontool_machine::machine::{
    Surroundings, complain, no_memory, open_zone, read_file, say_unread,
};
use crontool_machine::zones::TabZones;
use crontool_tabs::list::tell_all_refused;
use crontool_tabs::spans::{read_instant, say_missing};
use jiff::tz::TimeZone;

/// The message for a zone that `OnCalendar` can't take.
const NO_NAME: &str = "--zone of systemd is UTC, local or a name: OnCalendar takes no rule";

/// What the words of the command line ask.
#[derive(Clone, Copy)]
struct Words<'a> {
    file: &'a str,
    folder: &'a str,
    zone: &'a str,
}

// The words. `None` if one is missing: a parse of the command line refuses that before.
fn words_of<'a>(words: &ArgMatches<'a>) -> Option<Words<'a>> {
    Some(Words {
        file: words.get_str("FILE")?,
        folder: words.get_str("to")?,
        zone: words.get_str("zone")?,
    })
}

// The word of `OnCalendar` for the zone of `--zone`, or `None` for `local`. If there is none, that
// is written, and `Err` has the status of the subcommand.
fn word_of<'a>(rt: &HostRuntime, zone: &'a str) -> Result<Option<&'a str>, Status>
    ensures { IfOk result (λ word. ForSome word (λ w. is_word w.now ≡ true)) }
{
    if zone == "local" {
        return Ok(None);
    }
    match zone_word(zone) {
        Some(word) => Ok(Some(word)),
        None => Err(complain(rt, NO_NAME, Status::WrongWords)),
    }
}

// Writes a line about the entry of a line to standard error.
fn tell(rt: &HostRuntime, line: usize, made: &Made) -> Status {
    let told = match made {
        Made::Units(_) => return Status::Done,
        Made::Skips(date) => eprintln!(rt;
            "{line}: note: {date}: the clock skips a fixed time of the entry: cron runs it then, and systemd doesn't"
        ),
        Made::LeftOut(why) => eprintln!(rt; "{line}: {why}"),
    };
    match (told, made) {
        (Err(_), _) => Status::WriteFailed,
        (Ok(()), Made::LeftOut(_)) => Status::No,
        (Ok(()), _) => Status::Done,
    }
}

// Writes what there is to say of entries. The status is `No` if one is left out, else `Done`.
fn tell_all(rt: &HostRuntime, made: &[LineMade]) -> Status {
    let mut told = Status::Done;
    for one in made {
        told = told.worse(tell(rt, one.line, &one.made));
    }
    told
}

// Writes the files of what was made into a folder.
fn write_made(rt: &HostRuntime, asked: &Words<'_>, made: &[LineMade]) -> Result<(), Status> {
    let Ok(name) = front_of(rt.alloc(), asked.file) else {
        return Err(no_memory(rt));
    };
    let (folder, name) = (asked.folder, name.as_str());
    let Ok(front) = format!(in rt.alloc(); "{folder}/{name}") else {
        return Err(no_memory(rt));
    };
    match files_of(rt.alloc(), front.as_str(), made) {
        Ok(files) => write_files(rt, files.as_slice()),
        Err(_) => Err(no_memory(rt)),
    }
}

// Writes the units of a crontab's entries, which fire in `zone`, or in the zones that `CRON_TZ`
// names. What is refused and left out is reported first.
fn write_zoned(
    rt: &HostRuntime,
    words: &ArgMatches<'_>,
    given: &Words<'_>,
    file: &TabFile<'_>,
    zone: TimeZone<'_>,
    around: &Surroundings,
) -> Result<Status, Status> {
    let files = [*file];
    let opened = TabZones::of(rt, &files, around)?;
    let start = read_instant(
        rt,
        words.get_str("after").unwrap_or("now"),
        &zone,
        around.now,
    )?;
    let numbered = opened.numbered(rt, zone)?;
    let asked = Asked {
        kind: file.kind,
        zone: word_of(rt, given.zone)?,
        names: numbered.names.as_slice(),
        persistent: words.get_flag("persistent"),
        start,
    };
    let told = tell_all_refused(rt, &files, asked.names)?;
    let Ok(made) = list_made(rt.alloc(), &asked, numbered.zones.as_slice(), file.bytes) else {
        return Err(no_memory(rt));
    };
    let told = told.worse(tell_all(rt, made.as_slice()));
    write_made(rt, given, made.as_slice())?;
    Ok(told)
}

// Reads the crontab, and writes the units of its entries.
fn write_file(
    rt: &HostRuntime,
    words: &ArgMatches<'_>,
    given: &Words<'_>,
) -> Result<Status, Status> {
    let around = Surroundings::of(rt)?;
    let opened = open_zone(rt, given.zone, &around)?;
    let bytes = match read_file(rt, given.file) {
        Ok(bytes) => bytes,
        Err(error) => return Err(say_unread(rt, given.file, &error)),
    };
    let file = TabFile {
        kind: kind_of(words),
        name: None,
        bytes: bytes.as_slice(),
    };
    write_zoned(rt, words, given, &file, opened.time_zone(), &around)
}

/// Carries out the subcommand `systemd`, and returns its status.
pub fn answer(rt: &HostRuntime, words: &ArgMatches<'_>) -> Status {
    let Some(given) = words_of(words) else {
        return say_missing(rt);
    };
    match write_file(rt, words, &given) {
        Ok(status) | Err(status) => status,
    }
}
