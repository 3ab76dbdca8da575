//! The items after an item, or before it, a page at a time.

ghost use Rattle.std.specs.Prelude.{◌≡◌, false};
ghost use Rattle.jiff.specs.Words.{plain_zone};
ghost use Rattle.cron_walk_listing.specs.Output.{HandsOnItemsFlushed};
ghost use Rattle.cron_walk_listing.specs.Pages.{Pages, is_page_failure, item_or};
ghost use Rattle.cron_writer.specs.Calls.{AreWritesFlushed};
ghost use Rattle.cron_writer.specs.Watching.{has_failed, writer_of};
ghost use Rattle.cron_walk_listing.specs.declared.run.Page.TheVariants.{NotAnItem};

use crate::run::{Outcome, Page, finish, send_items};
use cron::Schedule;
use cron::schedule::Moment;
use cron_writer::watchable::Watchable;
use cron_writer::watched::Watched;
use jiff::tz::TimeZone;

// The last item that was listed, or `given` if there is none.
fn item_or(given: Moment, listed: Option<Moment>) -> Moment
    ensures { result ≡ item_or given listed }
{
    match listed {
        Some(moment) => moment,
        None => given,
    }
}

/// Writes a line for each of the first `size` items after `last`, or before it if `back` is true,
/// fewer if the timeline ends, and flushes. Nothing is written if `last` is no item of the schedule
/// in this zone. It takes no memory and keeps no walk. Lines are passed to the writer as in `run`.
/// No call of the writer may have failed before.
pub fn page<W: Watchable>(
    schedule: &Schedule,
    last: &Moment,
    zone: &TimeZone<'_>,
    size: u32,
    back: bool,
    out: &mut Watched<W>,
) -> Page
    requires { has_failed out.old ≡ false }
    ensures writes { Pages schedule.now.sets (plain_zone zone.now) last.now size back
        (W.contents (writer_of out.old)) (W.contents (writer_of out.new)) result }
    ensures mark { has_failed out.new ≡ is_page_failure result }
    ensures untouched { result ≡ NotAnItem → out.new ≡ out.old }
    ensures calls { (result ≡ NotAnItem → ⊥)
        → AreWritesFlushed W.writes W.flushes
        (writer_of out.old) (has_failed out.old) (writer_of out.new) (has_failed out.new) }
    ensures gathers { (result ≡ NotAnItem → ⊥)
        → HandsOnItemsFlushed W.writes W.flushes out.old out.new }
{
    let Some(mut walk) = schedule.resume(last, zone) else {
        return Page::NotAnItem;
    };
    let listed = item_or(*last, send_items(&mut walk, size, back, out));
    match finish(out, Outcome::Listed) {
        Outcome::WriteFailed => Page::WriteFailed,
        _ => Page::Listed(listed),
    }
}
