//! The subcommand `completions`: a script that lets a shell complete lines of `crontool`. It is
//! made from the same table as the help.

mod bash;
mod fish;
mod zsh;

use crate::words::Kind;
use clap::ArgMatches;
use cron_replies::status::Status;
use crontool_machine::machine::{complain, no_memory, write_page};
use std::alloc::AllocError;

/// What the value of a word may be, as shells complete it.
#[derive(Clone, Copy)]
pub(crate) enum Values {
    Files,
    Folders,
    Zones,
    Words(&'static [&'static str]),
    Any,
}

/// How a word is written in a command line.
#[derive(Clone, Copy)]
pub(crate) enum Place {
    /// `--NAME`.
    Flag,
    /// `--NAME` and a value of this name. It may be repeated if the flag is true.
    Option(&'static str, bool),
    /// A value at this place, or, if the flag is true, all values from this place on.
    Value(bool),
}

/// The instants that are one word.
const INSTANTS: [&str; 11] = [
    "now",
    "today",
    "tomorrow",
    "yesterday",
    "monday",
    "tuesday",
    "wednesday",
    "thursday",
    "friday",
    "saturday",
    "sunday",
];

// What the value that the table of subcommands calls `name` may be.
pub(crate) fn values_of(name: &str) -> Values {
    match name {
        "FILE" | "STAMP" | "START|FILE" | "END|FILE" => Values::Files,
        "FOLDER" => Values::Folders,
        "ZONE" => Values::Zones,
        "RULE" => Values::Words(&["latest", "each", "within="]),
        "WAY" => Values::Words(&["after", "before"]),
        "SHELL" => Values::Words(&["bash", "fish", "zsh"]),
        "START" | "END" | "INSTANT" => Values::Words(&INSTANTS),
        _ => Values::Any,
    }
}

pub(crate) fn place_of(kind: Kind) -> Place {
    match kind {
        Kind::Flag => Place::Flag,
        Kind::Given | Kind::Maybe => Place::Value(false),
        Kind::Many(_) => Place::Value(true),
        Kind::ChoiceMany(value) => Place::Option(value, true),
        Kind::Count => Place::Option("N", false),
        Kind::Choice(value)
        | Kind::Number(value)
        | Kind::Default(value, _)
        | Kind::Needed(value)
        | Kind::NeededNumber(value) => Place::Option(value, false),
    }
}

pub(crate) fn push_all(script: &mut String, parts: &[&str]) -> Result<(), AllocError> {
    for part in parts {
        script.push_str(*part)?;
    }
    Ok(())
}

pub(crate) fn push_joined(
    script: &mut String,
    words: &[&str],
    between: &str,
) -> Result<(), AllocError> {
    let mut front = "";
    for word in words {
        push_all(script, &[front, *word])?;
        front = between;
    }
    Ok(())
}

// Appends a text for single quotes of zsh or fish. In zsh, brackets and colons of a help have a
// meaning and are escaped.
pub(crate) fn push_help(script: &mut String, text: &str, is_zsh: bool) -> Result<(), AllocError> {
    for letter in text.chars() {
        match letter {
            '\'' => script.push_str("'\\''")?,
            '[' | ']' | ':' if is_zsh => {
                script.push('\\')?;
                script.push(letter)?;
            }
            _ => script.push(letter)?,
        }
    }
    Ok(())
}

/// Carries out the subcommand `completions`, and returns its status.
pub fn answer(rt: &HostRuntime, words: &ArgMatches<'_>) -> Status {
    let script = match words.get_str("SHELL") {
        Some("bash") => bash::script(rt.alloc()),
        Some("zsh") => zsh::script(rt.alloc()),
        Some("fish") => fish::script(rt.alloc()),
        _ => return complain(rt, "SHELL is bash, fish or zsh", Status::WrongWords),
    };
    match script {
        Ok(script) => write_page(rt, script.as_bytes()),
        Err(_) => no_memory(rt),
    }
}
