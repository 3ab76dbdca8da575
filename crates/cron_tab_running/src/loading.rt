//! Adds the entries of crontabs to an agenda, which knows when each fires next, and collects the
//! texts that are written at their fires.

ghost use Rattle.std.specs.Prelude.{◌≡◌, ◌++◌, ◌∷◌, ◌-◌, ℕ, List, [], IfErr, OnOk, if◌then◌else◌, map, nat_lt};
ghost use Rattle.std.specs.Str.{bytes_eq};
ghost use Rattle.jiff.specs.Words.{plain_zone};
ghost use Rattle.cron_shell.specs.Lines.{variable_view};
ghost use Rattle.cron_tab_lines.specs.Views.{file_line_view};
ghost use Rattle.cron_tab_agenda.specs.Adding as adding;
ghost use Rattle.cron_tab_tasks.specs.Tasks as tasks;
ghost use Rattle.cron_tab_running.specs.Noted.{AreLeft, left_of, noted_view};
ghost use Rattle.cron_tab_running.specs.Loading.{AddsTask, AddsTasks, AddsTimed, IsLoadError, file_tasks, files_tasks, given, nothing, state_of, task};

use crate::endings::ended;
use crate::failure::LoadError;
use crate::noted::{Counts, Noted, entry_of, take_one};
use crate::orders::{RunOrders, TabFile};
use cron_agenda::{AddError, Agenda};
use cron_agenda_scheduler::Timely;
use cron_shell::Variable;
use cron_tab_agenda::{TabEntry, changes_of};
use cron_tab_lines::{FileLine, Lines, zone_below};
use cron_tab_tasks::{push_defaults, push_variable, text_in};
use jiff::Timestamp;
use jiff::tz::TimeZone;
use std::alloc::{AllocError, Global};

/// The entries of crontabs, with the text that is written for each.
#[derive(Drop)]
pub(crate) struct Loaded {
    /// The key of each entry that was read, also of one that never fires: its zone's name, a tab
    /// and its line.
    pub(crate) known: Vec<Vec<u8>>,
    pub(crate) agenda: Agenda<Timely<TabEntry>>,
    /// The texts of the entries in the agenda, each at the id of its entry.
    pub(crate) texts: Vec<Vec<u8>>,
    /// The texts of the entries of `@reboot`, one after another.
    pub(crate) at_reboot: Vec<u8>,
}

impl Loaded {
    /// Returns a `Loaded` without entries and texts.
    pub(crate) fn new(alloc: Global) -> Loaded
        ensures { state_of result ≡ nothing }
    {
        Loaded {
            known: Vec::new(alloc),
            agenda: Agenda::new(alloc),
            texts: Vec::new(alloc),
            at_reboot: Vec::new(alloc),
        }
    }
}

/// Where and from when on entries fire: the zones, the instant after which new entries fire, and
/// the note of the run that noted entries continue.
#[derive(Clone, Copy)]
pub(crate) struct Start<'s, 'z> {
    pub(crate) zones: &'s [TimeZone<'z>],
    pub(crate) instant: Timestamp,
    pub(crate) noted: &'s Noted,
}

// Appends `text` to `texts`.
fn push_text(texts: &mut Vec<Vec<u8>>, text: Vec<u8>) -> Result<(), AllocError>
    ensures { OnOk result (map (λ t. t.items) texts.new.items
        ≡ map (λ t. t.items) texts.old.items ++ text.items ∷ []) }
{
    texts.push(text)?;
    Ok(())
}

// Returns the instant after which an entry fires: the noted instant if `counts` still has the
// entry, else the run's start. It lowers that count by one. So of equal entries the first ones go
// on, as many as are noted.
fn start_of(start: &Start<'_, '_>, counts: &mut Counts<'_>, entry: &[u8]) -> Timestamp
    ensures is { result.nanosecond ≡ if nat_lt 0 (left_of counts.old entry.now)
        then start.now.noted.now.until.nanosecond else start.now.instant.nanosecond }
    ensures now { (e : List ℕ) → left_of counts.new e
        ≡ (if bytes_eq entry.now e then left_of counts.old e - 1 else left_of counts.old e) }
{
    if take_one(counts, entry) {
        start.noted.until
    } else {
        start.instant
    }
}

// Adds an entry that fires by `table` after the instant `after`, and its text. An entry that never
// fires then is left out.
fn add_table(
    loaded: &mut Loaded,
    orders: &RunOrders<'_>,
    table: TabEntry,
    line: &FileLine<'_>,
    text: Vec<u8>,
    start: &Start<'_, '_>,
    after: Timestamp,
    zone: usize,
) -> Result<(), LoadError>
    ensures adds { OnOk result ((loaded.new.known ≡ loaded.old.known) × AddsTimed
        (given orders.now (map plain_zone start.now.zones.now) start.now.instant.nanosecond
        (noted_view start.now.noted.now))
        after.nanosecond zone (adding.changes_of orders.now.clock line.now.bytes.now) table
        text.items (state_of loaded.old) (state_of loaded.new)) }
    ensures err { IfErr result (IsLoadError
        (given orders.now (map plain_zone start.now.zones.now) start.now.instant.nanosecond
        (noted_view start.now.noted.now)) (state_of loaded.new)) }
{
    let changes = changes_of(orders.clock, line.bytes);
    let timely = Timely {
        table,
        lateness: orders.lateness,
    };
    match loaded.agenda.add(timely, changes, after, start.zones, zone) {
        Ok(_) => Ok(push_text(&mut loaded.texts, text)?),
        Err(AddError::NoFires) => Ok(()),
        Err(AddError::NoZone) => Err(LoadError::NoZone(zone)),
        Err(AddError::NoIds) => Err(LoadError::NoIds),
        Err(AddError::OutOfMemory) => Err(LoadError::OutOfMemory),
    }
}

// Adds the entry of `line` with its text. The text of an `@reboot` entry goes to `at_reboot`.
fn add_task(
    loaded: &mut Loaded,
    counts: &mut Counts<'_>,
    orders: &RunOrders<'_>,
    line: &FileLine<'_>,
    text: Vec<u8>,
    start: &Start<'_, '_>,
    zone: usize,
    alloc: Global,
) -> Result<(), LoadError>
    requires { AreLeft (noted_view start.now.noted.now).entries
        (state_of loaded.old).known counts.old }
    ensures adds { OnOk result (AddsTask
        (given orders.now (map plain_zone start.now.zones.now) start.now.instant.nanosecond
        (noted_view start.now.noted.now))
        (task (file_line_view line.now) zone text.items)
        (state_of loaded.old) (state_of loaded.new)) }
    ensures left { OnOk result (AreLeft (noted_view start.now.noted.now).entries
        (state_of loaded.new).known counts.new) }
    ensures err { IfErr result (IsLoadError
        (given orders.now (map plain_zone start.now.zones.now) start.now.instant.nanosecond
        (noted_view start.now.noted.now)) (state_of loaded.new)) }
{
    let entry = entry_of(alloc, orders.tasks.names, zone, line.bytes)?;
    let after = start_of(start, counts, entry.as_slice());
    push_text(&mut loaded.known, entry)?;
    let Some(table) = TabEntry::of(line) else {
        loaded.at_reboot.extend_from_slice(text.as_slice())?;
        return Ok(());
    };
    add_table(loaded, orders, table, line, text, start, after, zone)
}

// Adds the content of `line`, which may be a variable or an entry. `here` is the number of the
// entry's zone. It is `None` below a `CRON_TZ` that names no zone, and the entry is left out.
fn load_line<'a>(
    loaded: &mut Loaded,
    counts: &mut Counts<'_>,
    variables: &mut Vec<Variable<'a>>,
    orders: &RunOrders<'_>,
    line: &FileLine<'a>,
    start: &Start<'_, '_>,
    here: Option<usize>,
    alloc: Global,
) -> Result<(), LoadError>
    requires { AreLeft (noted_view start.now.noted.now).entries
        (state_of loaded.old).known counts.old }
    ensures variables { OnOk result (map variable_view variables.new.items
        ≡ map variable_view variables.old.items
        ++ tasks.variables_in (file_line_view line.now).outcome) }
    ensures adds { OnOk result (AddsTasks
        (given orders.now (map plain_zone start.now.zones.now) start.now.instant.nanosecond
        (noted_view start.now.noted.now))
        (tasks.task_in (file_line_view line.now) here
        (tasks.text_in (tasks.orders_view orders.now.tasks) (map variable_view variables.new.items)
        (file_line_view line.now)))
        (state_of loaded.old) (state_of loaded.new)) }
    ensures left { OnOk result (AreLeft (noted_view start.now.noted.now).entries
        (state_of loaded.new).known counts.new) }
    ensures err { IfErr result (IsLoadError
        (given orders.now (map plain_zone start.now.zones.now) start.now.instant.nanosecond
        (noted_view start.now.noted.now)) (state_of loaded.new)) }
{
    push_variable(variables, line)?;
    let text = text_in(alloc, &orders.tasks, variables.as_slice(), line)?;
    match (here, text) {
        (Some(zone), Some(text)) => {
            add_task(loaded, counts, orders, line, text, start, zone, alloc)
        },
        _ => Ok(()),
    }
}

// Adds the entries of a crontab, without a last line that no line feed ends. They fire in zone 0
// until a line sets `CRON_TZ`.
fn load_file(
    loaded: &mut Loaded,
    counts: &mut Counts<'_>,
    orders: &RunOrders<'_>,
    file: &TabFile<'_>,
    start: &Start<'_, '_>,
    alloc: Global,
) -> Result<(), LoadError>
    requires { AreLeft (noted_view start.now.noted.now).entries
        (state_of loaded.old).known counts.old }
    ensures adds { OnOk result (AddsTasks
        (given orders.now (map plain_zone start.now.zones.now) start.now.instant.nanosecond
        (noted_view start.now.noted.now))
        (file_tasks orders.now file.now) (state_of loaded.old) (state_of loaded.new)) }
    ensures left { OnOk result (AreLeft (noted_view start.now.noted.now).entries
        (state_of loaded.new).known counts.new) }
    ensures err { IfErr result (IsLoadError
        (given orders.now (map plain_zone start.now.zones.now) start.now.instant.nanosecond
        (noted_view start.now.noted.now)) (state_of loaded.new)) }
{
    let mut variables = Vec::new(alloc);
    push_defaults(&mut variables)?;
    let mut here = Some(0);
    for line in Lines::of(orders.tasks.kind, ended(file.bytes)) {
        load_line(
            loaded,
            counts,
            &mut variables,
            orders,
            &line,
            start,
            here,
            alloc,
        )?;
        here = zone_below(orders.tasks.names, here, &line);
    }
    Ok(())
}

/// Adds the entries of crontabs. `counts` is how many times each entry is noted and wasn't found
/// yet.
pub(crate) fn load_files(
    loaded: &mut Loaded,
    counts: &mut Counts<'_>,
    orders: &RunOrders<'_>,
    files: &[TabFile<'_>],
    start: &Start<'_, '_>,
    alloc: Global,
) -> Result<(), LoadError>
    requires { AreLeft (noted_view start.now.noted.now).entries
        (state_of loaded.old).known counts.old }
    ensures adds { OnOk result (AddsTasks
        (given orders.now (map plain_zone start.now.zones.now) start.now.instant.nanosecond
        (noted_view start.now.noted.now))
        (files_tasks orders.now files.now) (state_of loaded.old) (state_of loaded.new)) }
    ensures left { OnOk result (AreLeft (noted_view start.now.noted.now).entries
        (state_of loaded.new).known counts.new) }
    ensures err { IfErr result (IsLoadError
        (given orders.now (map plain_zone start.now.zones.now) start.now.instant.nanosecond
        (noted_view start.now.noted.now)) (state_of loaded.new)) }
{
    for file in files {
        load_file(loaded, counts, orders, file, start, alloc)?;
    }
    Ok(())
}
