//! Answers the subcommand `done`: notes a fire in a stamp, a file that `due` reads.

ghost use Rattle.std.specs.Prelude.{◌≡◌, false, true};
ghost use Rattle.cron_writer.specs.Watching.{has_failed};
ghost use Rattle.cron_answers.specs.DoneAnswers.{AnswersDone, Notes, is_before, objection};
ghost use Rattle.cron_replies.specs.Statuses.{Reports};
ghost use Rattle.cron_replies.specs.declared.status.Status.TheVariants.{WriteFailed};

use crate::noted::{Noted, noted_at};
use crate::notice::{Notice, say};
use crate::stamp::stamp_of;
use cron_dues::fire::{DueFire, due_second, nominal_second};
use cron_dues::reader;
use cron_notes::replace::replace;
use cron_notes::store::Store;
use cron_replies::status::Status;
use cron_writer::watchable::Watchable;
use cron_writer::watched::Watched;
use std::alloc::Global;

/// The arguments of `done`, not read yet.
#[derive(Clone, Copy)]
pub struct Request<'a> {
    /// The argument STAMP: a path.
    pub stamp: &'a str,
    /// The argument FIRE: a fire in its printed form.
    pub fire: &'a str,
}

// Whether `fire` is before `other`: by instant, then by the civil second matched if they share the
// instant.
fn is_before(fire: &DueFire, other: &DueFire) -> bool
    ensures { result ≡ is_before fire.now other.now }
{
    let second = due_second(fire);
    let other_second = due_second(other);
    second < other_second
        || (second == other_second && nominal_second(fire) < nominal_second(other))
}

// Why `fire` can't replace what the stamp notes, or `None` if it can.
fn objection(fire: &DueFire, noted: &Noted) -> Option<Notice>
    ensures { result ≡ objection fire.now noted.now }
{
    match noted {
        Noted::Fire(other) if is_before(fire, other) => Some(Notice::Older),
        Noted::Fire(_) | Noted::Nothing => None,
        Noted::Broken => Some(Notice::Broken),
        Noted::Unread => Some(Notice::Unread),
    }
}

// Replaces the file at a path by the stamp of a fire. If that fails, a notice says so.
fn note<S: Store, C: Watchable>(
    alloc: Global,
    path: &str,
    fire: &DueFire,
    store: &mut S,
    complaints: &mut Watched<C>,
) -> Status
    requires { has_failed complaints.old ≡ false }
    ensures notes { Notes S.does (Reports C.contents C.writes C.flushes) path.now fire.now
        (store.old, complaints.old) result (store.new, complaints.new) }
    ensures mark { has_failed complaints.new ≡ true → result ≡ WriteFailed }
{
    match replace(alloc, path, stamp_of(fire).as_slice(), store) {
        Ok(()) => Status::Done,
        Err(_) => {
            let _said = say(alloc, Notice::Unwritten, path, complaints);
            Status::WriteFailed
        }
    }
}

/// Answers a request: makes the stamp note the fire, unless it notes a later one, or the file can't
/// be read or is no stamp. The new stamp is written and synced beside the old one, then takes its
/// name, then the folder is synced. After one of these calls fails, no further call is made. What
/// is wrong goes to `complaints`. No call of that writer may have failed before.
pub fn answer<S: Store, C: Watchable>(
    alloc: Global,
    request: &Request<'_>,
    store: &mut S,
    complaints: &mut Watched<C>,
) -> Status
    requires { has_failed complaints.old ≡ false }
    ensures answers { AnswersDone S.reads S.does (Reports C.contents C.writes C.flushes) request.now
        (store.old, complaints.old) result (store.new, complaints.new) }
    ensures mark { has_failed complaints.new ≡ true → result ≡ WriteFailed }
{
    let Ok(fire) = reader::read(request.fire) else {
        return say(alloc, Notice::NoFire, request.fire, complaints);
    };
    let noted = noted_at(alloc, request.stamp, store);
    match objection(&fire, &noted) {
        Some(notice) => say(alloc, notice, request.stamp, complaints),
        None => note(alloc, request.stamp, &fire, store, complaints),
    }
}
