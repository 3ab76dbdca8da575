//! Answers the subcommand `windows`: lists the windows of a span.

ghost use Rattle.std.specs.Prelude.{◌≡◌, ◌||◌, false};
ghost use Rattle.cron_writer.specs.Watching.{has_failed};
ghost use Rattle.cron_answers.specs.Answers.{given};
ghost use Rattle.cron_replies.specs.Statuses.{is_write_failure, Reports};
ghost use Rattle.cron_window_answers.specs.Answers.{AnswersWindows};

use crate::told::{Question, tell_of};
use crate::words::{Words, sought_of};
use cron_answers::span::{Span, ends_of};
use cron_answers::trouble::tell;
use cron_replies::form::Form;
use cron_replies::status::Status;
use cron_writer::watchable::Watchable;
use cron_writer::watched::Watched;
use cron_zones::files::ZoneFiles;
use cron_zones::open::Places;
use jiff::Timestamp;
use std::alloc::Global;

/// The arguments of `windows`, not read yet.
#[derive(Clone, Copy)]
pub struct Request<'a> {
    /// The arguments that name the windows.
    pub words: Words<'a>,
    /// START and END, or one word.
    pub span: Span<'a>,
    /// How windows are written.
    pub form: Form,
}

/// Answers a request: writes a row for each window from START on and before END to `out`, and what
/// is wrong to `complaints`. The first window and the last are cut at START and END, each at the
/// first whole second there. Zones are searched in `places` and `files`, and at most one file is
/// read. No call of the writers may have failed before.
pub fn answer<F: ZoneFiles, W: Watchable, C: Watchable>(
    alloc: Global,
    request: &Request<'_>,
    now: Timestamp,
    places: &Places<'_>,
    files: &mut F,
    out: &mut Watched<W>,
    complaints: &mut Watched<C>,
) -> Status
    requires out { has_failed out.old ≡ false }
    requires complaints { has_failed complaints.old ≡ false }
    ensures answers { AnswersWindows (given F.reads places.now now.nanosecond) request.now
        (Reports W.contents W.writes W.flushes) (Reports C.contents C.writes C.flushes)
        (files.old, out.old, complaints.old) result (files.new, out.new, complaints.new) }
    ensures mark { (has_failed out.new || has_failed complaints.new) ≡ is_write_failure result }
{
    let sought = match sought_of(alloc, &request.words, places, files) {
        Ok(sought) => sought,
        Err(trouble) => return tell(alloc, &trouble, complaints),
    };
    let zone = sought.subject.zone.time_zone();
    match ends_of(&request.span, &zone, now) {
        Ok(ends) => {
            let question = Question::Between(ends.0, ends.1);
            let chosen = request.words.changes;
            tell_of(&sought, chosen, &question, &zone, request.form, out)
        }
        Err(trouble) => tell(alloc, &trouble, complaints),
    }
}
