//! Answers the subcommand `inside`: says whether a window is open at an instant.

ghost use Rattle.std.specs.Prelude.{◌≡◌, ◌||◌, false};
ghost use Rattle.cron_writer.specs.Watching.{has_failed};
ghost use Rattle.cron_answers.specs.Answers.{given};
ghost use Rattle.cron_replies.specs.Statuses.{is_write_failure, Reports};
ghost use Rattle.cron_window_answers.specs.Answers.{AnswersInside};

use crate::told::{Question, tell_of};
use crate::words::{Words, sought_of};
use cron_answers::instant::instant_of;
use cron_answers::trouble::{Trouble, tell};
use cron_replies::form::Form;
use cron_replies::status::Status;
use cron_writer::watchable::Watchable;
use cron_writer::watched::Watched;
use cron_zones::files::ZoneFiles;
use cron_zones::open::Places;
use jiff::Timestamp;
use std::alloc::Global;

/// The arguments of `inside`, not read yet.
#[derive(Clone, Copy)]
pub struct Request<'a> {
    /// The arguments that name the windows.
    pub words: Words<'a>,
    /// The value of `--at`, an instant: `now` if it is left out.
    pub at: &'a str,
    /// How the answer is written.
    pub form: Form,
}

/// Answers a request: writes one line to `out` on whether a window is open at the instant, since
/// when and until when, and what is wrong to `complaints`. The state is followed 400 days back and ahead.
/// The status is `Done` if a window is open, else `No`. No call of the writers may have failed
/// before.
pub fn answer<F: ZoneFiles, W: Watchable, C: Watchable>(
    alloc: Global,
    request: &Request<'_>,
    now: Timestamp,
    places: &Places<'_>,
    files: &mut F,
    out: &mut Watched<W>,
    complaints: &mut Watched<C>,
) -> Status
    requires out { has_failed out.old ≡ false }
    requires complaints { has_failed complaints.old ≡ false }
    ensures answers { AnswersInside (given F.reads places.now now.nanosecond) request.now
        (Reports W.contents W.writes W.flushes) (Reports C.contents C.writes C.flushes)
        (files.old, out.old, complaints.old) result (files.new, out.new, complaints.new) }
    ensures mark { (has_failed out.new || has_failed complaints.new) ≡ is_write_failure result }
{
    let sought = match sought_of(alloc, &request.words, places, files) {
        Ok(sought) => sought,
        Err(trouble) => return tell(alloc, &trouble, complaints),
    };
    let zone = sought.subject.zone.time_zone();
    let Some(at) = instant_of(request.at, &zone, now) else {
        return tell(alloc, &Trouble::Instant(request.at), complaints);
    };
    let question = Question::At(at);
    let chosen = request.words.changes;
    tell_of(&sought, chosen, &question, &zone, request.form, out)
}
