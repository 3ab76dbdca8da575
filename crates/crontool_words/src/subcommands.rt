//! The subcommands, each with its words: the arguments and options of its line.

use crate::calendars::{calendar, ics};
use crate::expressions::{between, explain, next, on_calendar, overlap};
use crate::missing::{done, due, late, missed};
use crate::plans::{inside, rota, windows};
use crate::runs::{alarm, run};
use crate::tabs::{check, collisions, compare, list, systemd};
use crate::words::{Kind, Word};

/// A subcommand: its name, what the help says about it, and its arguments and options, the words.
#[derive(Clone, Copy)]
pub(crate) struct Subcommand {
    pub(crate) name: &'static str,
    pub(crate) about: &'static str,
    /// The lines of usage that the help shows in place of those made from the words. They omit the
    /// names of the program and the subcommand.
    pub(crate) usages: &'static [&'static str],
    /// Two lines that the help shows as examples, without the name `crontool`.
    pub(crate) examples: [&'static str; 2],
    pub(crate) words: &'static [Word],
    /// The options of a plan, if the subcommand has them.
    pub(crate) plan: &'static [Word],
}

static COMPLETIONS: Subcommand = Subcommand {
    name: "completions",
    about: "Writes a script by which a shell completes lines of crontool",
    usages: &[],
    examples: ["completions bash", "completions zsh"],
    words: &[Word("SHELL", Kind::Given, &[], "bash, fish or zsh")],
    plan: &[],
};

/// The subcommand `completions`.
pub(crate) fn completions() -> &'static Subcommand {
    &COMPLETIONS
}

/// All subcommands, in the order of the help.
pub(crate) fn subcommands() -> [&'static Subcommand; 22] {
    [
        next(),
        between(),
        list(),
        late(),
        missed(),
        due(),
        done(),
        check(),
        compare(),
        overlap(),
        collisions(),
        on_calendar(),
        systemd(),
        explain(),
        calendar(),
        ics(),
        windows(),
        inside(),
        rota(),
        run(),
        alarm(),
        completions(),
    ]
}
