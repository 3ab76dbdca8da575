//! Why there is no report on a rota, and the line that states it.

ghost use Rattle.std.specs.Prelude.{◌≡◌, false};
ghost use Rattle.cron_writer.specs.Calls.{AreWritesFlushed};
ghost use Rattle.cron_writer.specs.Watching.{has_failed, writer_of};
ghost use Rattle.cron_replies.specs.Statuses.{is_write_failure};
ghost use Rattle.cron_rota_answers.specs.Troubles.{IsTold, status_of};

use crate::people::PeopleError;
use crate::swap_error::SwapsError;
use cron_answers::trouble::Trouble;
use cron_replies::sending::send_bytes;
use cron_replies::status::Status;
use cron_writer::watchable::Watchable;
use cron_writer::watched::Watched;
use std::alloc::Global;
use std::fmt;

/// Why there is no report on a rota. It displays the message.
#[derive(Drop)]
pub enum RotaTrouble<'a> {
    /// The expression, the zone or an instant is wrong, or memory ran out.
    Words(Trouble<'a>),
    /// The names of the people are wrong.
    People(PeopleError),
    /// The file of swaps with this name is wrong.
    Swaps(&'a str, SwapsError<'a>),
}

impl<'a> fmt::Display for RotaTrouble<'a> {
    ghost use Rattle.std.specs.Prelude.{Some};
    ghost use Rattle.cron_rota_answers.specs.Troubles.{trouble_text};

    ghost output = { λ trouble. Some (trouble_text trouble) };

    fn fmt<W: fmt::Write>(&self, f: &mut fmt::Formatter<W>) -> fmt::Result {
        match self {
            RotaTrouble::Words(trouble) => write!(f, "{trouble}"),
            RotaTrouble::People(error) => write!(f, "{error}"),
            RotaTrouble::Swaps(file, SwapsError::Line(wrong)) => {
                let (number, fault) = (wrong.number, wrong.fault);
                write!(f, "{file}:{number}: {fault}")
            }
            RotaTrouble::Swaps(_, SwapsError::OutOfMemory) => f.write_str("out of memory"),
        }
    }
}

impl<'a> RotaTrouble<'a> {
    /// The status of the subcommand: `WrongWords` if a word is wrong, `Unreadable` if the file of
    /// swaps is, if the zone can't be opened for another reason, or if memory ran out.
    pub fn status(&self) -> Status
        ensures status { result ≡ status_of self.now }
        ensures done { is_write_failure result ≡ false }
    {
        match self {
            RotaTrouble::Words(trouble) => trouble.status(),
            RotaTrouble::People(PeopleError::OutOfMemory) => Status::Unreadable,
            RotaTrouble::People(_) => Status::WrongWords,
            RotaTrouble::Swaps(_, _) => Status::Unreadable,
        }
    }
}

/// Writes the line that states the trouble, and flushes. Returns the trouble's status, or
/// `WriteFailed` if a call fails. If memory runs out for the line, it says that instead. No call of
/// the writer may have failed before.
pub fn tell<W: Watchable>(alloc: Global, trouble: &RotaTrouble<'_>, out: &mut Watched<W>) -> Status
    requires { has_failed out.old ≡ false }
    ensures told { IsTold trouble.now
        (W.contents (writer_of out.old)) (W.contents (writer_of out.new)) result }
    ensures mark { has_failed out.new ≡ is_write_failure result }
    ensures calls { AreWritesFlushed W.writes W.flushes
        (writer_of out.old) (has_failed out.old) (writer_of out.new) (has_failed out.new) }
{
    match format!(in alloc; "error: {trouble}\n") {
        Ok(line) => send_bytes(line.as_bytes(), trouble.status(), out),
        Err(_) => send_bytes(b"error: out of memory\n", Status::Unreadable, out),
    }
}
