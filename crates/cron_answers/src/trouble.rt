//! Why a subcommand can't be answered, and the line that states it.

ghost use Rattle.std.specs.Prelude.{◌≡◌, false};
ghost use Rattle.cron_writer.specs.Calls.{AreWritesFlushed};
ghost use Rattle.cron_writer.specs.Watching.{has_failed, writer_of};
ghost use Rattle.cron_replies.specs.Statuses.{is_write_failure};
ghost use Rattle.cron_answers.specs.Troubles.{IsTold, status_of, zone_word};

use crate::refusal::Refusal;
use cron_replies::status::{Status, finish};
use cron_writer::watchable::Watchable;
use cron_writer::watched::{Watched, send};
use cron_zones::error::ZoneError;
use cron_zones::open::Places;
use std::alloc::Global;
use std::fmt;

/// Why a subcommand can't be answered, with the word at fault. It displays the message.
#[derive(Drop)]
pub enum Trouble<'a> {
    /// The text is no expression.
    Expression(&'a str, Refusal<'a>),
    /// The zone can't be opened, for this reason.
    Zone(&'a str, ZoneError),
    /// The text is no instant.
    Instant(&'a str),
    /// The text, without an END, names no whole day, month or night.
    Whole(&'a str),
    /// START, the first, comes after END.
    Order(&'a str, &'a str),
    /// The text is no format of `strftime`.
    Format(&'a str),
    /// Memory ran out.
    NoMemory,
}

impl<'a> fmt::Display for Trouble<'a> {
    ghost use Rattle.std.specs.Prelude.{Some};
    ghost use Rattle.cron_answers.specs.Troubles.{trouble_text};

    ghost output = { λ trouble. Some (trouble_text trouble) };

    fn fmt<W: fmt::Write>(&self, f: &mut fmt::Formatter<W>) -> fmt::Result {
        match self {
            Trouble::Expression(text, refusal) => {
                write!(f, "'{text}' is no expression: {refusal}")
            }
            Trouble::Zone(text, error) => write!(f, "the zone '{text}' can't be had: {error}"),
            Trouble::Instant(text) => write!(
                f,
                "'{text}' is no instant, as now, today, tomorrow, yesterday, monday to sunday, \
                 2024-02, 2024-02-29, '2024-02-29 14:30', 14:30, +8h, -90m, +30s, +2d, -1w, \
                 @1709217000 or 2024-02-29T14:30:00Z"
            ),
            Trouble::Whole(text) => write!(
                f,
                "'{text}' is no whole day or month, as today, tonight, monday, 2024-02-29 or \
                 2024-02; or an END is missing"
            ),
            Trouble::Order(start, end) => write!(f, "START '{start}' comes after END '{end}'"),
            Trouble::Format(text) => write!(
                f,
                "'{text}' is no format of strftime, as '%F %T %z', or wants the name of a zone, as %Z"
            ),
            Trouble::NoMemory => f.write_str("out of memory"),
        }
    }
}

impl<'a> Trouble<'a> {
    /// The status of the subcommand: `WrongWords` if a word is wrong, `Unreadable` if the zone
    /// can't be opened for another reason, or if memory ran out.
    pub fn status(&self) -> Status
        ensures { result ≡ status_of self.now }
    {
        match self {
            Trouble::Expression(_, _)
            | Trouble::Instant(_)
            | Trouble::Whole(_)
            | Trouble::Order(_, _)
            | Trouble::Format(_) => Status::WrongWords,
            Trouble::Zone(_, ZoneError::NoZone) => Status::WrongWords,
            Trouble::Zone(_, _) | Trouble::NoMemory => Status::Unreadable,
        }
    }
}

/// The name of a zone in messages. For `local` it is the value of TZ, if that is set.
pub fn zone_word<'a>(zone: &'a str, places: &Places<'a>) -> &'a str
    ensures { result.now ≡ zone_word places.now.tz zone.now }
{
    match places.tz {
        Some(tz) => {
            if zone == "local" {
                return tz;
            }
            zone
        }
        None => zone,
    }
}

/// Writes the line that states the trouble, and flushes. Returns the trouble's status, or
/// `WriteFailed` if a call fails. If memory runs out for the line, it says that instead. No call of
/// the writer may have failed before.
pub fn tell<W: Watchable>(alloc: Global, trouble: &Trouble<'_>, out: &mut Watched<W>) -> Status
    requires { has_failed out.old ≡ false }
    ensures told { IsTold trouble.now
        (W.contents (writer_of out.old)) (W.contents (writer_of out.new)) result }
    ensures mark { has_failed out.new ≡ is_write_failure result }
    ensures calls { AreWritesFlushed W.writes W.flushes
        (writer_of out.old) (has_failed out.old) (writer_of out.new) (has_failed out.new) }
{
    match format!(in alloc; "error: {trouble}\n") {
        Ok(line) => {
            send(out, line.as_bytes());
            finish(out, trouble.status())
        }
        Err(_) => {
            send(out, b"error: out of memory\n");
            finish(out, Status::Unreadable)
        }
    }
}
