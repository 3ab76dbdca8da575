//! A printer that writes a text to any writer and flushes it.

ghost use Rattle.cron_printing.specs.Printing.{PrintsText, writer_calls};

use cron_writer::watchable::Watchable;
use cron_writer::watched::{Watched, send};
use std::error::Error;
use std::fmt;

/// A write or a flush failed.
#[derive(Clone, Copy, Debug)]
pub struct WriteFailed;

impl fmt::Display for WriteFailed {
    ghost use Rattle.std.specs.Prelude.{Some};
    ghost use Rattle.cron_printing.specs.Printing.{write_failed_text};

    ghost output = { λ _. Some write_failed_text };

    ghost styled_output = { λ _ _. Some write_failed_text };

    fn fmt<W: fmt::Write>(&self, f: &mut fmt::Formatter<W>) -> fmt::Result {
        f.write_str("a write failed")
    }
}

impl Error for WriteFailed {}

/// A printer of texts, which flushes after each. Once a call of the writer has failed, it calls
/// the writer no more.
#[derive(Drop)]
pub struct Printer<W> {
    /// Where the texts go.
    pub out: Watched<W>,
}

impl<W: Watchable> Printer<W> {
    /// Writes `text` and flushes. Once a call has failed it does nothing, and fails.
    pub fn print(&mut self, text: &[u8]) -> Result<(), WriteFailed>
        ensures { PrintsText (writer_calls W.writes W.flushes W.contents)
            self.old text.now result self.new }
    {
        send(&mut self.out, text);
        if self.out.has_failed() {
            return Err(WriteFailed);
        }
        let _flushed = self.out.flush();
        if self.out.has_failed() {
            return Err(WriteFailed);
        }
        Ok(())
    }
}
