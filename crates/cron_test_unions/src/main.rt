//! Replays the rows of `data/` about unions: the civil seconds that two of them share, counts of
//! fires, sentences, lines of systemd's `OnCalendar`, and expressions of Quartz. It prints each
//! answer that differs from its row, and the number of rows of each file.
#![tactic(auto)]

mod quartz;
mod unions;

use anyhow::{Result, bail};
use cron_crontab::{Expression, read};
use cron_test_rows::{Ask, Row, ask_files, sets_of};
use cron_text::no_ordinals;
use unions::{Asked, Counts};

/// How the expressions of a file are read.
#[derive(Clone, Copy)]
enum Form {
    /// Expressions of six or seven fields; `none` stands for seven empty sets.
    Cron,
    /// Expressions of a crontab.
    Crontab,
    /// Expressions of Quartz.
    Quartz,
}

/// What the rows of a file hold.
#[derive(Clone, Copy)]
enum Kind {
    /// Two unions, the first civil second that both match, and the first that only one matches. The
    /// answers were counted apart, day by day.
    Firsts,
    /// A zone, a civil day, a union, and the number of its fires on each day, or in each hour, from
    /// that day on. They were counted by a scan of civil seconds, with their readings from Python's
    /// zoneinfo. A zone `file NAME` is read from a file of the zone database (2025b).
    Fires(Counts),
    /// An expression, and its lines of `OnCalendar`, or its sentence. They were written by hand,
    /// and systemd 252 read the lines.
    Texts(Form, Asked),
    /// An expression of which at most four sets aren't whole, and how many words its sentence has at
    /// most.
    Lengths,
    /// The file of a zone (2025b), its name, a start, a union, its lines, and the first instants
    /// after the start when these elapse. The lines were written by hand, and systemd 252 gave the
    /// instants.
    Elapses,
    /// An expression of Quartz, and its first fires; or `refused`.
    QuartzFires,
    /// A text that Quartz refuses.
    QuartzRefused,
    /// An expression of Quartz, on how many days of 1970 to 2100 it fires, and the sum of their
    /// numbers.
    QuartzDays,
    /// A text, and the message of its refusal.
    QuartzMessages,
}

const FILES: [(Kind, &str); 15] = [
    (Kind::Firsts, "firsts.tsv"),
    (Kind::Fires(Counts::ByDay), "counts_by_day.tsv"),
    (Kind::Fires(Counts::ByHour), "counts_by_hour.tsv"),
    (
        Kind::Texts(Form::Cron, Asked::CalendarLines),
        "calendar_lines.tsv",
    ),
    (
        Kind::Texts(Form::Crontab, Asked::CalendarLines),
        "calendar_lines_of_crontabs.tsv",
    ),
    (Kind::Elapses, "elapses.tsv"),
    (Kind::Texts(Form::Cron, Asked::Sentence), "sentences.tsv"),
    (
        Kind::Texts(Form::Crontab, Asked::Sentence),
        "sentences_of_crontabs.tsv",
    ),
    (Kind::Lengths, "lengths.tsv"),
    (
        Kind::Texts(Form::Quartz, Asked::Sentence),
        "sentences_of_quartz.tsv",
    ),
    (Kind::QuartzFires, "quartz_fires.tsv"),
    (Kind::QuartzFires, "quartz_mutations.tsv"),
    (Kind::QuartzRefused, "quartz_refused.txt"),
    (Kind::QuartzDays, "quartz_days.tsv"),
    (Kind::QuartzMessages, "quartz_messages.txt"),
];

// Compares the text `asked` of an expression in the form `form`.
fn ask_text(row: &mut Row<'_>, form: Form, asked: Asked) -> Result<()> {
    let text = row.cell();
    match form {
        Form::Cron if text == "none" => unions::ask_text(row, asked, &[no_ordinals()]),
        Form::Cron => {
            let schedules = sets_of(row.alloc(), text, " ; ")?;
            unions::ask_text(row, asked, schedules.as_slice())
        }
        Form::Crontab => {
            let read = read(text);
            let Ok(Expression::Fires(schedules)) = &read else {
                bail!("no expression");
            };
            unions::ask_text(row, asked, schedules.as_slice())
        }
        Form::Quartz => {
            let Ok(expression) = cron_quartz::read(text) else {
                bail!("no expression");
            };
            unions::ask_text(row, asked, expression.as_slice())
        }
    }
}

impl Ask for Kind {
    fn ask(&self, row: &mut Row<'_>) -> Result<()> {
        match self {
            Kind::Firsts => unions::ask_firsts(row),
            Kind::Fires(counts) => unions::ask_counts(row, *counts),
            Kind::Texts(form, asked) => ask_text(row, *form, *asked),
            Kind::Lengths => unions::ask_length(row),
            Kind::Elapses => unions::ask_elapses(row),
            Kind::QuartzFires => quartz::ask_fires(row),
            Kind::QuartzRefused => quartz::ask_refused(row),
            Kind::QuartzDays => quartz::ask_days(row),
            Kind::QuartzMessages => quartz::ask_message(row),
        }
    }
}

fn main(rt: HostRuntime) -> Result<()> {
    ask_files(&rt, &FILES)
}
