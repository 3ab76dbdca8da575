//! The completions of zsh: a script that completes lines of `crontool`.

use crate::completions::{Place, Values, place_of, push_all, push_help, push_joined, values_of};
use crate::subcommands::{Subcommand, subcommands};
use crate::words::Word;
use std::alloc::{AllocError, Global};

const START: &str = r#"#compdef crontool
# Completions of crontool for zsh

_crontool_zones() {
    compadd UTC local $(awk '!/^#/ { print $3 }' "${TZDIR:-/usr/share/zoneinfo}/zone.tab" 2>/dev/null)
}

_crontool_subcommands() {
    local -a names
    names=(
"#;

const MIDDLE: &str = r#"    )
    _describe subcommand names
}

_crontool() {
    if ((CURRENT == 2)); then
        _crontool_subcommands
        return
    fi
    shift words
    ((CURRENT--))
    case $words[1] in
    help) _arguments ':SUBCOMMAND:_crontool_subcommands' ;;
"#;

const END: &str = r#"    esac
}

if [ "$funcstack[1]" = _crontool ]; then
    _crontool "$@"
else
    compdef _crontool crontool
fi
"#;

// Appends the name of a value, and what zsh calls to complete it.
fn push_values(script: &mut String, name: &str) -> Result<(), AllocError> {
    push_all(script, &[":", name, ":"])?;
    match values_of(name) {
        Values::Files => script.push_str("_files"),
        Values::Folders => script.push_str("_files -/"),
        Values::Zones => script.push_str("_crontool_zones"),
        Values::Words(words) => {
            script.push('(')?;
            push_joined(script, words, " ")?;
            script.push(')')
        }
        Values::Any => script.push(' '),
    }
}

// Appends an option with its help. `end` is `=` if the option has a value.
fn push_option(script: &mut String, name: &str, end: &str, help: &str) -> Result<(), AllocError> {
    push_all(script, &["--", name, end, "["])?;
    push_help(script, help, true)?;
    script.push(']')
}

// The mark in front of a word: a star if the word may come several times.
fn star_of(is_many: bool) -> &'static str {
    if is_many { "*" } else { "" }
}

fn push_word(script: &mut String, word: &Word) -> Result<(), AllocError> {
    let Word(name, kind, _, help) = *word;
    script.push_str(" \\\n        '")?;
    match place_of(kind) {
        Place::Flag => push_option(script, name, "", help)?,
        Place::Option(value, is_many) => {
            script.push_str(star_of(is_many))?;
            push_option(script, name, "=", help)?;
            push_values(script, value)?;
        }
        Place::Value(is_many) => {
            script.push_str(star_of(is_many))?;
            push_values(script, name)?;
        }
    }
    script.push('\'')
}

fn push_subcommand(script: &mut String, said: &Subcommand) -> Result<(), AllocError> {
    push_all(
        script,
        &["    ", said.name, ") _arguments '--help[Print help]'"],
    )?;
    for word in said.words.iter().chain(said.plan) {
        push_word(script, word)?;
    }
    script.push_str(" ;;\n")
}

/// Returns the script that completes lines of `crontool` in zsh.
pub(crate) fn script(alloc: Global) -> Result<String, AllocError> {
    let mut script = String::new(alloc);
    script.push_str(START)?;
    for said in subcommands() {
        push_all(&mut script, &["        '", said.name, ":"])?;
        push_help(&mut script, said.about, true)?;
        script.push_str("'\n")?;
    }
    script.push_str(MIDDLE)?;
    for said in subcommands() {
        push_subcommand(&mut script, said)?;
    }
    script.push_str(END)?;
    Ok(script)
}
