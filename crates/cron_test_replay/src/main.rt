//! Replays the rows of `data/`: texts and what they mean, walks and their answers, fires and due
//! fires by instants, also of several schedules as one, runs by a clock, and agendas and their
//! loop. It prints each answer that differs from its row, and the number of rows of each file.
#![tactic(auto)]

mod agendas;
mod clocks;
mod counted;
mod dues;
mod entries;
mod fires;
mod instants;
mod lists;
mod made_texts;
mod plans;
mod runs;
mod texts;
mod walks;

use anyhow::Result;
use cron_test_rows::{Ask, Row, ask_files};

/// What the rows of a file hold.
#[derive(Clone, Copy)]
enum Kind {
    /// A text and its answer.
    Texts,
    /// A form, and the short texts that are read in it.
    ShortTexts,
    /// The pieces of a long text, and its answer.
    LongTexts,
    /// A text, and the number of texts that are one change away from it.
    Changes,
    /// A walk: expression, zone, start, calls and answers.
    Walks,
    /// A search ahead or back: expression, zone, datetime and answer.
    Searches(&'static str),
    /// A question by instants, as `fires after` or `dues between`: expression, zone, one or two
    /// instants, and the answers.
    Instants(&'static str),
    /// A question by instants about several schedules as one: the question, their expressions,
    /// zone, instants and answers.
    Unions,
    /// The number of fires between two instants, and a checksum over all of them.
    FiresCounted,
    /// The number of due fires between two instants, and a checksum over all of them.
    DuesCounted,
    /// A text, and the due fire that it is.
    DueTexts,
    /// A run of a plan on a clock that follows a script.
    Plans,
    /// Steps of an agenda, and the answer of each.
    Agendas,
    /// The loop over an agenda: what the clock shows, what the job does, and the outcome.
    Runs,
}

/// The files, each with its kind.
const FILES: [(Kind, &str); 53] = [
    (Kind::Texts, "texts_accepted.txt"),
    (Kind::Texts, "texts_refused.txt"),
    (Kind::Texts, "texts_beginnings.txt"),
    (Kind::Texts, "texts_shorthands.txt"),
    (Kind::Texts, "texts_units_seconds.txt"),
    (Kind::Texts, "texts_units_minutes.txt"),
    (Kind::Texts, "texts_units_hours.txt"),
    (Kind::Texts, "texts_units_days_of_month.txt"),
    (Kind::Texts, "texts_units_months.txt"),
    (Kind::Texts, "texts_units_days_of_week.txt"),
    (Kind::Texts, "texts_units_years.txt"),
    (Kind::Texts, "texts_names_first_half_year.txt"),
    (Kind::Texts, "texts_names_second_half_year.txt"),
    (Kind::Texts, "texts_names_days_of_week.txt"),
    (Kind::Texts, "texts_names_other_units.txt"),
    (Kind::Texts, "texts_faults.txt"),
    (Kind::Texts, "texts_spaces.txt"),
    (Kind::Texts, "texts_random_read.txt"),
    (Kind::Texts, "texts_random_outside_the_grammar.txt"),
    (Kind::Texts, "texts_random_refused_values.txt"),
    (Kind::ShortTexts, "short_texts.txt"),
    (Kind::LongTexts, "long_texts.txt"),
    (Kind::Walks, "walks_ahead.txt"),
    (Kind::Walks, "walks_back.txt"),
    (Kind::Walks, "walks_that_turn.txt"),
    (Kind::Walks, "walks_in_folds_and_gaps.txt"),
    (Kind::Walks, "walks_at_the_ends_of_time.txt"),
    (Kind::Walks, "walks_at_fixed_offsets.txt"),
    (Kind::Walks, "walks_of_eight_calls.txt"),
    (Kind::Walks, "walks_utc.txt"),
    (Kind::Walks, "walks_fixed.txt"),
    (Kind::Walks, "walks_rules.txt"),
    (Kind::Walks, "walks_zone_turns.txt"),
    (Kind::Walks, "walks_mended_late_starts.txt"),
    (Kind::Walks, "walks_mended_early_starts.txt"),
    (Kind::Walks, "walks_mended_turns.txt"),
    (Kind::Searches("ahead"), "searches_ahead.txt"),
    (Kind::Searches("back"), "searches_back.txt"),
    (Kind::Instants("fires after"), "fires_after.txt"),
    (Kind::Instants("fires by"), "fires_by.txt"),
    (Kind::Instants("fires between"), "fires_between.txt"),
    (Kind::Instants("fires between"), "fires_counted_by_hand.txt"),
    (Kind::FiresCounted, "fires_of_a_year.txt"),
    (Kind::Instants("dues after"), "dues_after.txt"),
    (Kind::Instants("dues by"), "dues_by.txt"),
    (Kind::Instants("dues between"), "dues_between.txt"),
    (Kind::DuesCounted, "dues_of_days.txt"),
    (Kind::DueTexts, "due_texts.txt"),
    (Kind::Unions, "unions.txt"),
    (Kind::Plans, "plans.txt"),
    (Kind::Agendas, "agendas.txt"),
    (Kind::Runs, "runs.txt"),
    (Kind::Changes, "changes.txt"),
];

impl Ask for Kind {
    fn ask(&self, row: &mut Row<'_>) -> Result<()> {
        match self {
            Kind::Texts => texts::ask(row),
            Kind::ShortTexts => made_texts::ask_short(row),
            Kind::LongTexts => made_texts::ask_long(row),
            Kind::Changes => made_texts::ask_changes(row),
            Kind::Walks => walks::ask(row),
            Kind::Searches(way) => walks::ask_search(row, way),
            Kind::Instants(asked) => instants::ask(row, asked),
            Kind::Unions => instants::ask_union(row),
            Kind::FiresCounted => counted::ask_fires(row),
            Kind::DuesCounted => counted::ask_dues(row),
            Kind::DueTexts => dues::ask_text(row),
            Kind::Plans => plans::ask(row),
            Kind::Agendas => agendas::ask(row),
            Kind::Runs => runs::ask(row),
        }
    }
}

fn main(rt: HostRuntime) -> Result<()> {
    ask_files(&rt, &FILES)
}
