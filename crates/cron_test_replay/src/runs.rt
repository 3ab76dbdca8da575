//! Rows of the loop over an agenda. A row has zones, entries with their lateness, what the clock
//! shows after each wait, what the job does, and the greatest number of runs. Its answer has the
//! waits, what the job did, and how the loop ends. After a step `lend 1` the loop is given only the
//! first zone.

use crate::clocks::{ScriptedClock, or_none};
use crate::entries::{files_of, tables_of, zones_of};
use anyhow::{Context, Error, Result, anyhow, bail, ensure};
use cron_agenda::{AddError, Agenda, AgendaFire};
use cron_agenda_scheduler::{AgendaJob, AgendaStop, Lateness, Timely, run, step};
use cron_fires::{ClockChanges, Union};
use cron_test_rows::Row;
use cron_units::fields::ScheduleFields;
use jiff::Timestamp;
use jiff::tz::TimeZone;
use std::fmt::Write;

/// A job that notes each fire. At its run number `at`, from 1 on, it does `deed`.
#[derive(Drop)]
struct ScriptedJob<'a> {
    noted: String,
    runs: u64,
    /// `fails` ends the loop; `notes` notes a failure and goes on; `removes` or `adds` an entry.
    deed: &'a str,
    at: u64,
    /// The id of the entry to remove, or the step that adds one.
    entry: &'a str,
    schedules: &'a [ScheduleFields],
    zones: &'a [TimeZone<'a>],
}

impl ScriptedJob<'_> {
    fn note(&mut self, word: &str, due: &AgendaFire) -> Result<()> {
        if !self.noted.is_empty() {
            self.noted.push_str(", ")?;
        }
        let (id, instant) = (due.id, due.fire.timestamp());
        Ok(write!(self.noted, "{word} {id} {instant}")?)
    }
}

impl<'a> AgendaJob<Timely<Union<'a>>> for ScriptedJob<'a> {
    type Error = Error;

    fn run(&mut self, due: AgendaFire, agenda: &mut Agenda<Timely<Union<'a>>>) -> Result<()> {
        self.runs = self.runs.saturating_add(1);
        let acts = self.runs == self.at;
        let word = if acts && self.deed == "notes" {
            "failed"
        } else {
            "ran"
        };
        self.note(word, &due)?;
        if acts && self.deed == "removes" {
            let _found = agenda.remove(self.entry.parse::<u64>()?);
        }
        if acts && self.deed == "adds" {
            add(agenda, self.zones, self.entry, self.schedules)?;
        }
        ensure!(!acts || self.deed != "fails", "the run fails");
        Ok(())
    }

    fn pass_over(&mut self, due: AgendaFire) {
        let _noted = self.note("over", &due);
    }
}

/// Adds the entry of a step like `shown 0 latest 2024-03-10T05:00:00Z: ..`, unless it has no fires.
fn add<'a>(
    agenda: &mut Agenda<Timely<Union<'a>>>,
    zones: &[TimeZone<'_>],
    step: &str,
    schedules: &'a [ScheduleFields],
) -> Result<()> {
    let (words, _) = step.split_once(": ").context("an expression is wanted")?;
    let (rule, rest) = words.split_once(' ').context("a rule is wanted")?;
    let (zone, rest) = rest.split_once(' ').context("a zone is wanted")?;
    let (lateness, start) = rest.split_once(' ').context("a lateness is wanted")?;
    let lateness = match lateness.strip_prefix("within:") {
        Some(seconds) => Lateness::Within(seconds.parse::<u64>()?),
        None if lateness == "each" => Lateness::Each,
        None if lateness == "latest" => Lateness::Latest,
        None => bail!("{lateness:?} is no lateness"),
    };
    let changes = match rule {
        "shown" => ClockChanges::AsShown,
        "once" => ClockChanges::Once,
        _ => bail!("{rule:?} is no rule"),
    };
    let table = Timely {
        table: Union { schedules },
        lateness,
    };
    let start = start.parse::<Timestamp>()?;
    match agenda.add(table, changes, start, zones, zone.parse()?) {
        Ok(_) | Err(AddError::NoFires) => Ok(()),
        Err(error) => bail!("{error}"),
    }
}

/// Runs the loop for at most `most` runs of the job. If `most` is `None`, it makes the loop's steps
/// one by one.
fn play<'a>(
    agenda: &mut Agenda<Timely<Union<'a>>>,
    clock: &mut ScriptedClock<'_>,
    job: &mut ScriptedJob<'a>,
    most: Option<u64>,
) -> Result<(), AgendaStop<Error, Error>> {
    let zones = job.zones;
    if let Some(most) = most {
        return run(agenda, zones, clock, job, most);
    }
    for _ in 0..1_000 {
        if !step(agenda, zones, clock, job)? {
            return Ok(());
        }
    }
    Err(AgendaStop::Job(anyhow!("the steps don't end")))
}

/// Compares the outcome of one run with the row. Its entries may be in any of the zones, but the
/// loop and the job may be given fewer. The last of `tables` is for the job's entry.
fn ask_once<'a>(
    row: &mut Row<'_>,
    zones: &'a [TimeZone<'a>],
    entries: &str,
    tables: &'a [Vec<ScheduleFields>],
    shown: &'a str,
    script: &'a str,
    most: Option<u64>,
) -> Result<()> {
    let mut agenda = Agenda::new(row.alloc());
    let mut lent = zones.len();
    for (step, schedules) in entries.split(" ; ").zip(tables) {
        match step.strip_prefix("lend ") {
            Some(count) => lent = count.parse::<usize>()?,
            None => add(&mut agenda, zones, step, schedules.as_slice())?,
        }
    }
    let words: Vec<&str> = shown.split(' ').collect(row.alloc())?;
    let mut clock = ScriptedClock {
        words: words.as_slice(),
        waits: String::new(row.alloc()),
        count: 0,
    };
    let (deed, rest) = script.split_once(':').unwrap_or((script, "0"));
    let (at, entry) = rest.split_once(':').unwrap_or((rest, ""));
    let more = tables.last().context("no schedules")?;
    let zones = zones.get(..lent).context("too many zones")?;
    let mut job = ScriptedJob {
        noted: String::new(row.alloc()),
        runs: 0,
        deed,
        at: at.parse::<u64>()?,
        entry,
        schedules: more.as_slice(),
        zones,
    };
    let ended = match play(&mut agenda, &mut clock, &mut job, most) {
        Ok(()) => "ok",
        Err(AgendaStop::Clock(_)) => "the clock failed",
        Err(AgendaStop::Zone(_)) => "a zone is missing",
        Err(AgendaStop::Job(_)) => "the job failed",
    };
    row.add("", &or_none(clock.waits.as_str()))?;
    row.add(" | ", &or_none(job.noted.as_str()))?;
    row.add(" | ", &ended)?;
    row.add(", ", &agenda.len())?;
    row.add(" ", &"left")?;
    row.check(if most.is_some() {
        "the loop"
    } else {
        "its steps"
    })
}

/// Replays a row of the loop. If the number of runs is `-`, single steps must have the same
/// outcome. A script is `-`, `fails:3`, `notes:3`, `removes:2:0` or `adds:2:STEP`. Here
/// `removes:2:0` removes entry 0 at the second run.
pub(crate) fn ask(row: &mut Row<'_>) -> Result<()> {
    let (names, entries, shown) = (row.cell(), row.cell(), row.cell());
    let (script, most) = (row.cell(), row.cell());
    let files = files_of(row, names)?;
    let zones = zones_of(row.alloc(), names, files.as_slice())?;
    let mut tables = tables_of(row.alloc(), entries)?;
    for table in tables_of(row.alloc(), script)? {
        tables.push(table)?;
    }
    let (zones, tables) = (zones.as_slice(), tables.as_slice());
    if most != "-" {
        let most = most.parse::<u64>()?;
        return ask_once(row, zones, entries, tables, shown, script, Some(most));
    }
    ask_once(row, zones, entries, tables, shown, script, Some(u64::MAX))?;
    ask_once(row, zones, entries, tables, shown, script, None)
}
