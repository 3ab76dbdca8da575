//! The loop over the loaded entries.

ghost use Rattle.jiff.specs.Words.{plain_zone};
ghost use Rattle.cron_printing.specs.Printing.{writer_calls};
ghost use Rattle.cron_scheduler.specs.Runs.{clock_calls};
ghost use Rattle.std.specs.Prelude.{◌≡◌, map};
ghost use Rattle.cron_tab_running.specs.Loading.{state_of};
ghost use Rattle.cron_tab_running.specs.Running.{RunsLoaded};
ghost use Rattle.cron_tab_running.specs.Writing.{WritesStart};

use crate::loading::{Loaded, Start};
use crate::orders::RunOrders;
use crate::run_clock::EntryClock;
use crate::writer::TabWriter;
use cron_agenda_scheduler::{AgendaStop, run};
use cron_printing::printer::WriteFailed;
use cron_tab_tasks::names_fires;
use cron_writer::watchable::Watchable;
use jiff::Timestamp;

// Writes the texts of the `@reboot` entries, if the orders want them at the start.
fn write_start<W: Watchable>(
    writer: &mut TabWriter<W>,
    orders: &RunOrders<'_>,
    at_reboot: &[u8],
) -> Result<(), WriteFailed>
    ensures starts { WritesStart (writer_calls W.writes W.flushes W.contents) orders.now.reboot
        at_reboot.now writer.old.printer result writer.new.printer }
    ensures texts { writer.new.texts ≡ writer.old.texts }
    ensures names { writer.new.names_fires ≡ writer.old.names_fires }
{
    if orders.reboot {
        writer.printer.print(at_reboot)
    } else {
        Ok(())
    }
}

/// Passes the entries to the clock, writes the texts of `@reboot` if they are wanted, and then runs
/// the entries. All fires up to `until` count as run.
pub(crate) fn run_loaded<C: EntryClock, W: Watchable>(
    loaded: Loaded,
    orders: &RunOrders<'_>,
    start: &Start<'_, '_>,
    until: Timestamp,
    clock: &mut C,
    writer: &mut TabWriter<W>,
) -> Result<(), AgendaStop<C::Error, WriteFailed>>
    ensures { RunsLoaded (clock_calls C.shows C.waits) C.begins
        (writer_calls W.writes W.flushes W.contents)
        orders.now (map plain_zone start.now.zones.now) until (state_of loaded)
        (clock.old, writer.old) result (clock.new, writer.new) }
{
    let Loaded {
        known,
        mut agenda,
        texts,
        at_reboot,
    } = loaded;
    writer.texts = texts;
    writer.names_fires = names_fires(&orders.tasks.form);
    clock.begin(until, known);
    match write_start(writer, orders, at_reboot.as_slice()) {
        Ok(()) => run(&mut agenda, start.zones, clock, writer, orders.most),
        Err(error) => Err(AgendaStop::Job(error)),
    }
}
