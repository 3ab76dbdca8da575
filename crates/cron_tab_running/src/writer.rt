//! Writes the texts of entries at the fires of an agenda.

ghost use Rattle.std.specs.Prelude.{◌≡◌, [], false};
ghost use Rattle.cron_printing.specs.Printing.{writer_calls};
ghost use Rattle.cron_agenda.specs.Messages.{fire_text};
ghost use Rattle.cron_shell.specs.Lines.{log_front};
ghost use Rattle.cron_tab_running.specs.Writing.{PrintsWhere, text_at};

use crate::fronts::front_of;
use cron_agenda::{Agenda, AgendaFire, EntryFire};
use cron_agenda_scheduler::AgendaJob;
use cron_fires::CivilSeconds;
use cron_printing::printer::{Printer, WriteFailed};
use cron_writer::watchable::Watchable;
use cron_writer::watched::Watched;
use std::alloc::Global;

/// A job that writes the text of the fire's entry for each fire, and flushes. After a failed call
/// it calls the writer no more.
#[derive(Drop)]
pub struct TabWriter<W> {
    /// Where the texts go.
    pub printer: Printer<W>,
    /// The texts, each at the id of its entry.
    pub(crate) texts: Vec<Vec<u8>>,
    /// True if a front comes before each text: a shell command that writes the fire to a log file.
    pub(crate) names_fires: bool,
}

impl<W: Watchable> TabWriter<W> {
    /// A writer without texts.
    pub fn new(alloc: Global, out: Watched<W>) -> TabWriter<W>
        ensures printer { result.printer.out ≡ out }
        ensures texts { result.texts.items ≡ [] }
        ensures names { result.names_fires ≡ false }
    {
        TabWriter {
            printer: Printer { out },
            texts: Vec::new(alloc),
            names_fires: false,
        }
    }
}

// The text of the entry `id`, or an empty one if there is none.
fn text_at(texts: &[Vec<u8>], id: u64) -> &[u8]
    ensures { result.now ≡ text_at texts.now id }
{
    match texts.get(id as usize) {
        Some(text) => text.as_slice(),
        None => &[],
    }
}

// Writes the front, a shell command that writes `fire` into the file of its entry's output, if
// `names_fires` is true.
fn write_front<W: Watchable>(
    printer: &mut Printer<W>,
    names_fires: bool,
    fire: &EntryFire,
) -> Result<(), WriteFailed>
    ensures { PrintsWhere (writer_calls W.writes W.flushes W.contents) names_fires printer.old
        (log_front (fire_text fire.now)) result printer.new }
{
    if names_fires {
        printer.print(front_of(fire).as_slice())
    } else {
        Ok(())
    }
}

impl<T: CivilSeconds, W: Watchable> AgendaJob<T> for TabWriter<W> {
    type Error = WriteFailed;

    ghost use Rattle.cron_printing.specs.Printing.{writer_calls};
    ghost use Rattle.cron_tab_running.specs.Writing.{WritesText};

    ghost runs = { WritesText (writer_calls W.writes W.flushes W.contents) };

    ghost passes = { λ old _ new. new ≡ old };

    fn run(&mut self, due: AgendaFire, _agenda: &mut Agenda<T>) -> Result<(), WriteFailed> {
        write_front(&mut self.printer, self.names_fires, &due.fire)?;
        self.printer.print(text_at(self.texts.as_slice(), due.id))
    }

    fn pass_over(&mut self, _due: AgendaFire) {}
}
