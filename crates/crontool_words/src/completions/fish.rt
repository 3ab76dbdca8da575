//! The completions of fish: a script that completes lines of `crontool`.

use crate::completions::{Place, Values, place_of, push_all, push_help, push_joined, values_of};
use crate::subcommands::{Subcommand, subcommands};
use crate::words::Word;
use std::alloc::{AllocError, Global};

const START: &str = r#"# Completions of crontool for fish

function __crontool_zones
    printf '%s\n' UTC local
    set -q TZDIR; or set -l TZDIR /usr/share/zoneinfo
    awk '!/^#/ { print $3 }' $TZDIR/zone.tab 2>/dev/null
end

complete -c crontool -f
complete -c crontool -l help -d 'Print help'
complete -c crontool -n __fish_use_subcommand -l version -d 'Print version'
complete -c crontool -n __fish_use_subcommand -a help -d 'Print the help of a subcommand'
"#;

fn push_values(script: &mut String, name: &str) -> Result<(), AllocError> {
    match values_of(name) {
        Values::Files => script.push_str(" -r -F"),
        Values::Folders => script.push_str(" -x -a '(__fish_complete_directories)'"),
        Values::Zones => script.push_str(" -x -a '(__crontool_zones)'"),
        Values::Words(words) => {
            script.push_str(" -x -a '")?;
            push_joined(script, words, " ")?;
            script.push('\'')
        }
        Values::Any => script.push_str(" -x"),
    }
}

// Appends the beginning of a line that completes something after the subcommand `said`.
fn push_front(script: &mut String, said: &Subcommand) -> Result<(), AllocError> {
    let front = "complete -c crontool -n '__fish_seen_subcommand_from ";
    push_all(script, &[front, said.name, "'"])
}

// Appends a line that completes the value `name`, if it may be files or given words. Other values
// aren't completed.
fn push_place(script: &mut String, said: &Subcommand, name: &str) -> Result<(), AllocError> {
    match values_of(name) {
        Values::Files => {
            push_front(script, said)?;
            script.push_str(" -F\n")
        }
        Values::Words(words) => {
            push_front(script, said)?;
            script.push_str(" -a '")?;
            push_joined(script, words, " ")?;
            script.push_str("'\n")
        }
        Values::Folders | Values::Zones | Values::Any => Ok(()),
    }
}

fn push_word(script: &mut String, said: &Subcommand, word: &Word) -> Result<(), AllocError> {
    let Word(name, kind, _, help) = *word;
    let place = place_of(kind);
    if let Place::Value(_) = place {
        return push_place(script, said, name);
    }
    push_front(script, said)?;
    push_all(script, &[" -l ", name])?;
    if let Place::Option(value, _) = place {
        push_values(script, value)?;
    }
    script.push_str(" -d '")?;
    push_help(script, help, false)?;
    script.push_str("'\n")
}

fn push_subcommand(script: &mut String, said: &Subcommand) -> Result<(), AllocError> {
    let front =
        "complete -c crontool -n '__fish_use_subcommand; or __fish_seen_subcommand_from help'";
    push_all(script, &[front, " -a ", said.name, " -d '"])?;
    push_help(script, said.about, false)?;
    script.push_str("'\n")?;
    for word in said.words.iter().chain(said.plan) {
        push_word(script, said, word)?;
    }
    Ok(())
}

/// Returns the script that completes lines of `crontool` in fish.
pub(crate) fn script(alloc: Global) -> Result<String, AllocError> {
    let mut script = String::new(alloc);
    script.push_str(START)?;
    for said in subcommands() {
        push_subcommand(&mut script, said)?;
    }
    Ok(script)
}
