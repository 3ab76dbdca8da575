//! Runs crontabs: adds their entries to an agenda, reports refused lines, and runs the loop over
//! it.

ghost use Rattle.std.specs.Prelude.{◌≡◌, ◌++◌, [], IfErr, IfOk, OnOk, map};
ghost use Rattle.std.specs.String.{string_bytes};
ghost use Rattle.jiff.specs.Words.{plain_zone};
ghost use Rattle.cron_printing.specs.Printing.{writer_calls};
ghost use Rattle.cron_scheduler.specs.Runs.{clock_calls};
ghost use Rattle.cron_tab_running.specs.Ended.{ended};
ghost use Rattle.cron_tab_running.specs.Loading.{AddsTasks, IsLoadError, State, files_tasks, given, nothing, state_of, told_end, told_files};
ghost use Rattle.cron_tab_running.specs.Noted.{noted_view};
ghost use Rattle.cron_tab_running.specs.Running.{RunsFiles, begin_at};

use crate::endings::ended;
use crate::failure::{Failure, LoadError, failure_of, outcome_of};
use crate::loading::{Loaded, Start, load_files};
use crate::loop_over::run_loaded;
use crate::noted::{Noted, later};
use crate::orders::{RunOrders, TabFile};
use crate::run_clock::EntryClock;
use crate::writer::TabWriter;
use cron_agenda_scheduler::AgendaStop;
use cron_printing::printer::Printer;
use cron_tab_lines::Lines;
use cron_tab_tasks::{Orders, push_refusals};
use cron_writer::watchable::Watchable;
use jiff::Timestamp;
use jiff::tz::TimeZone;
use std::alloc::{AllocError, Global};

// Appends the message that a file's last line is left out, if no line feed ends it.
fn push_end(told: &mut String, file: &TabFile<'_>, whole: &[u8]) -> Result<(), AllocError>
    requires { whole.now ≡ ended file.now.bytes.now }
    ensures { OnOk result (string_bytes told.new
        ≡ string_bytes told.old ++ told_end file.now.name.now file.now.bytes.now) }
{
    if whole.len() == file.bytes.len() {
        return Ok(());
    }
    told.push_str(file.name)?;
    told.push_str(": no line feed ends the last line, which is left out until one does\n")
}

// The messages about lines that are refused, and about a last line that is left out.
fn refusals_of(
    alloc: Global,
    tasks: &Orders<'_>,
    files: &[TabFile<'_>],
) -> Result<String, AllocError>
    ensures { IfOk result (λ told. string_bytes told
        ≡ told_files tasks.now.kind tasks.now.names.now files.now) }
{
    let mut told = String::new(alloc);
    for file in files {
        let whole = ended(file.bytes);
        push_refusals(
            &mut told,
            file.name,
            tasks.names,
            Lines::of(tasks.kind, whole),
        )?;
        push_end(&mut told, file, whole)?;
    }
    Ok(told)
}

// Entries that were added, with the messages about lines that are refused or left out.
#[derive(Drop)]
struct Begun {
    loaded: Loaded,
    told: String,
}

// Adds the entries of crontabs to a new agenda, and collects the messages about their lines.
fn begin(
    alloc: Global,
    orders: &RunOrders<'_>,
    files: &[TabFile<'_>],
    start: &Start<'_, '_>,
) -> Result<Begun, LoadError>
    ensures adds { IfOk result (λ b. AddsTasks
        (given orders.now (map plain_zone start.now.zones.now) start.now.instant.nanosecond
        (noted_view start.now.noted.now))
        (files_tasks orders.now files.now) nothing (state_of b.loaded)) }
    ensures told { IfOk result (λ b. string_bytes b.told
        ≡ told_files orders.now.tasks.kind orders.now.tasks.names.now files.now) }
    ensures err { IfErr result (λ why. (s : State) × IsLoadError
        (given orders.now (map plain_zone start.now.zones.now) start.now.instant.nanosecond
        (noted_view start.now.noted.now)) s why) }
{
    let mut loaded = Loaded::new(alloc);
    let mut counts = start.noted.counts(alloc)?;
    load_files(&mut loaded, &mut counts, orders, files, start, alloc)?;
    let told = refusals_of(alloc, &orders.tasks, files)?;
    Ok(Begun { loaded, told })
}

/// A minute, in nanoseconds.
const MINUTE: i128 = 60_000_000_000;

// The instant after which an entry fires that isn't noted. After an earlier look at the files, at
// `since`, it is that look, but at most a minute before `now`. Else it is the later of `now` and
// `until`, the noted instant.
fn begin_at(since: Option<Timestamp>, now: Timestamp, until: Timestamp) -> Timestamp
    ensures { result.nanosecond ≡ begin_at since now.nanosecond until.nanosecond }
{
    let Some(look) = since else {
        return later(now, until);
    };
    match Timestamp::from_nanosecond(now.as_nanosecond() - MINUTE) {
        Ok(back) => later(look, back),
        Err(_) => look,
    }
}

/// Writes messages about the lines that are refused, and then runs the other entries. An entry runs
/// in the first of the zones, or, after a line that sets `CRON_TZ`, in the zone that it names. A
/// last line without a line feed may be half written: it is left out, and a message says so. An
/// entry of `noted` fires after the noted instant. Every other entry fires after that instant and
/// after the time that the clock shows first. With an earlier look at the files, `since`, it fires
/// after that look instead, but at most a minute back. An entry's text is written at its fire, and
/// flushed, before the next wait. The run ends when no entry fires any more, after `orders.most`
/// runs, or by a failure.
pub fn run_files<C: EntryClock, W: Watchable, E: Watchable>(
    alloc: Global,
    orders: &RunOrders<'_>,
    files: &[TabFile<'_>],
    zones: &[TimeZone<'_>],
    noted: &Noted,
    since: Option<Timestamp>,
    clock: &mut C,
    writer: &mut TabWriter<W>,
    complaints: &mut Printer<E>,
) -> Result<(), Failure<C::Error>>
    ensures { RunsFiles (clock_calls C.shows C.waits) C.begins
        (writer_calls W.writes W.flushes W.contents) (writer_calls E.writes E.flushes E.contents)
        orders.now files.now (map plain_zone zones.now) (noted_view noted.now) since
        (clock.old, writer.old, complaints.old) result (clock.new, writer.new, complaints.new) }
{
    let now = match clock.now() {
        Ok(now) => now,
        Err(error) => return Err(Failure::Stopped(AgendaStop::Clock(error))),
    };
    let start = Start {
        zones,
        instant: begin_at(since, now, noted.until),
        noted,
    };
    let begun = match begin(alloc, orders, files, &start) {
        Ok(begun) => begun,
        Err(why) => return Err(failure_of(why)),
    };
    let Begun { loaded, told } = begun;
    let until = later(start.instant, noted.until);
    match complaints.print(told.as_bytes()) {
        Ok(()) => outcome_of(run_loaded(loaded, orders, &start, until, clock, writer)),
        Err(_) => Err(Failure::Untold),
    }
}
