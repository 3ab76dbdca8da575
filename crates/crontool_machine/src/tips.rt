//! Tips, which follow the message about a name that is nearly right: the name that was most likely
//! meant.

use crate::machine::Surroundings;
use clap::ArgMatches;
use cron_answers::expression::read_as;
use cron_answers::refusal::Refusal;
use cron_answers::trouble::zone_word;
use cron_answers::whole::read_whole;
use cron_replies::status::Status;
use cron_tips::{NoName, crontab_word, own_word, quartz_word, zone_near};
use cron_zones::error::ZoneError;
use cron_zones::machine::MachineFiles;
use cron_zones::open::open;
use std::fmt::Display;

// Writes a tip to standard error. Returns `status`, or `WriteFailed` if that fails.
fn write_tip<N: Display>(
    rt: &HostRuntime,
    kind: &str,
    word: &str,
    name: &N,
    status: Status,
) -> Status {
    match eprintln!(rt; "  tip: a {kind} similar to '{word}' exists: '{name}'") {
        Ok(()) => status,
        Err(_) => Status::WriteFailed,
    }
}

// Tells the name of a month or a day that a word most likely means.
fn tell_name(rt: &HostRuntime, no_name: NoName<'_>, status: Status) -> Status {
    match no_name.names.near(rt.alloc(), no_name.word) {
        Ok(Some(name)) => write_tip(rt, "name", no_name.word, &name, status),
        Ok(None) | Err(_) => status,
    }
}

// The word of a refused expression that is no name of a month or a day, if that is its fault.
fn word_of<'a>(refusal: &Refusal<'a>) -> Option<NoName<'a>> {
    match refusal {
        Refusal::Crontab(fault) => crontab_word(fault),
        Refusal::Own(fault) => own_word(fault),
        Refusal::Quartz(fault) => quartz_word(fault),
    }
}

// Why the first of some expressions that is refused is refused.
fn first_refusal<'a>(quartz: bool, texts: &[&'a str]) -> Option<Refusal<'a>> {
    for text in texts {
        if let Err(refusal) = read_as(quartz, *text) {
            return Some(refusal);
        }
    }
    None
}

// Why the first of the expressions among the words of a subcommand that is refused is refused.
// `next` may have a number before its own, and a span of one word leaves END to the first one.
fn refusal_in<'a>(name: &str, words: &ArgMatches<'a>) -> Option<Refusal<'a>> {
    let quartz = words.get_flag("quartz");
    let texts = words.get_strs("EXPRESSION").unwrap_or(&[]);
    let refusal = match (name, texts) {
        ("next", [_, expression]) => first_refusal(quartz, &[*expression]),
        ("between" | "ics", []) => first_refusal(quartz, words.get_strs("END").unwrap_or(&[])),
        ("explain", [text]) => read_whole(quartz, *text).err(),
        _ => first_refusal(quartz, texts),
    };
    match refusal {
        Some(refusal) => Some(refusal),
        None => first_refusal(quartz, words.get_strs("OTHER").unwrap_or(&[])),
    }
}

// Tells the zone that the value of `--zone` most likely means, if it can't be opened.
fn tell_zone(rt: &HostRuntime, zone: &str, status: Status) -> Status {
    let around = Surroundings::quietly(rt);
    let places = around.places();
    let mut files = MachineFiles(rt);
    match open(rt.alloc(), zone, &places, &mut files) {
        Ok(_) | Err(ZoneError::OutOfMemory) => return status,
        Err(_) => {}
    }
    let word = zone_word(zone, &places);
    let Ok(Some(name)) = zone_near(rt.alloc(), word, places.folder, &mut files) else {
        return status;
    };
    if open(rt.alloc(), name.as_str(), &places, &mut files).is_err() {
        return status;
    }
    write_tip(rt, "zone", word, &name, status)
}

/// Tells the name that was most likely meant, after a message about an expression or a zone of the
/// words of the subcommand `name`. Returns `status`, that of the subcommand, or `WriteFailed` if the
/// tip can't be written.
pub fn tell_tip(rt: &HostRuntime, name: &str, words: &ArgMatches<'_>, status: Status) -> Status {
    if !matches!(status, Status::WrongWords | Status::Unreadable) || words.get_flag("files") {
        return status;
    }
    if let Some(refusal) = refusal_in(name, words) {
        return match word_of(&refusal) {
            Some(no_name) => tell_name(rt, no_name, status),
            None => status,
        };
    }
    match words.get_str("zone") {
        Some(zone) => tell_zone(rt, zone, status),
        None => status,
    }
}
