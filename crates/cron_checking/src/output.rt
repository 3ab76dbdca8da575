//! Texts that are gathered, and passed to a writer in blocks.

ghost use Rattle.cron_checking.specs.Puts.{Puts};

use cron_writer::gathered::{Gathered, ROOM};
use cron_writer::watchable::Watchable;
use cron_writer::watched::{Watched, send};

/// Gathers a text after the texts before it. A text that is longer than what can be gathered is
/// passed on by itself.
pub fn put<W: Watchable>(text: &[u8], gathered: &mut Gathered, out: &mut Watched<W>)
    ensures { Puts W.contents W.writes gathered.old out.old gathered.new out.new text.now }
{
    if text.len() <= ROOM {
        gathered.push_line(text, out);
        return;
    }
    gathered.send(out);
    send(out, text);
}
