//! The windows between two instants as a list, for a calendar of them.

ghost use Rattle.std.specs.Prelude.{◌≡◌, IfOk, MatchResult};
ghost use Rattle.jiff.specs.Words.{plain_zone};
ghost use Rattle.cron_answers.specs.Answers.{given};
ghost use Rattle.cron_stretches.specs.Fires.{instants, second_of};
ghost use Rattle.cron_windows.specs.Windows.{is_open, windows_between};
ghost use Rattle.cron_window_answers.specs.Gathering.{HasNoWindows, HasWindows};
ghost use Rattle.cron_window_answers.specs.Listings.{windows_in};
ghost use Rattle.cron_window_answers.specs.Windows.{windows_by, windows_of};

use crate::words::{Closing, Sought, Words, sought_of};
use cron_answers::span::{Span, ends_of};
use cron_answers::trouble::Trouble;
use cron_fires::{AsShown, CivilSeconds, ClockChanges, Once, Rule, Union};
use cron_stretches::fires::{instant_at, whole_second};
use cron_stretches::stretch::Stretch;
use cron_windows::windows::Windows;
use cron_zones::files::ZoneFiles;
use cron_zones::open::Places;
use jiff::Timestamp;
use jiff::tz::TimeZone;
use std::alloc::{AllocError, Global};

/// Windows are wanted from the first instant on and before the second.
#[derive(Clone, Copy)]
struct Ends {
    from: Timestamp,
    to: Timestamp,
}

// The windows between two whole seconds.
fn collect_windows<S: CivilSeconds, C: CivilSeconds, R: Rule>(
    alloc: Global,
    windows: &Windows<'_, S, C, R>,
    from: Timestamp,
    to: Timestamp,
) -> Result<Vec<Stretch<bool>>, AllocError>
    ensures { IfOk result (λ list. list.items ≡ windows_between (is_open windows.now)
        (second_of from.nanosecond) (second_of to.nanosecond)) }
{
    windows.open_between(from, to).collect(alloc)
}

// The windows between two instants, cut there.
fn gather<S: CivilSeconds, C: CivilSeconds, R: Rule>(
    alloc: Global,
    windows: &Windows<'_, S, C, R>,
    ends: Ends,
) -> Result<Vec<Stretch<bool>>, AllocError>
    ensures { IfOk result (λ list. list.items
        ≡ windows_in windows.now ends.from.nanosecond ends.to.nanosecond) }
{
    let first = instant_at(whole_second(ends.from));
    let end = instant_at(whole_second(ends.to));
    collect_windows(alloc, windows, first, end)
}

// The windows between two instants that open at the fires of a set. Both sets fire by the rule `R`.
fn gather_by<S: CivilSeconds, R: Rule>(
    alloc: Global,
    opens: S,
    closing: &Closing,
    clock: &R::Clock,
    ends: Ends,
) -> Result<Vec<Stretch<bool>>, AllocError>
    ensures { IfOk result (λ list. list.items ≡ windows_in
        (windows_by (λ s. instants R.at (R.fires s clock.now)) (S.has opens) closing.now)
        ends.from.nanosecond ends.to.nanosecond) }
{
    match closing {
        Closing::At(expression) => {
            let closes = Union {
                schedules: expression.as_slice(),
            };
            let windows = Windows::<_, _, R>::closed_by(opens, closes, clock);
            gather(alloc, &windows, ends)
        }
        Closing::After(seconds) => {
            let windows = Windows::<_, _, R>::lasting(opens, seconds.get(), clock).unwrap();
            gather(alloc, &windows, ends)
        }
    }
}

// The windows between two instants in a zone. Both expressions fire by the rule `chosen`, or by the
// opening expression's own if that is `None`.
fn gather_of(
    alloc: Global,
    sought: &Sought<'_>,
    chosen: Option<ClockChanges>,
    ends: Ends,
    zone: &TimeZone<'_>,
) -> Result<Vec<Stretch<bool>>, AllocError>
    ensures { IfOk result (λ list. list.items ≡ windows_in
        (windows_of chosen sought.now.subject.expression sought.now.closing (plain_zone zone.now))
        ends.from.nanosecond ends.to.nanosecond) }
{
    let expression = &sought.subject.expression;
    let opens = Union {
        schedules: expression.as_slice(),
    };
    let closing = &sought.closing;
    let clock = *zone;
    match expression.changes(chosen) {
        ClockChanges::AsShown => {
            gather_by::<_, AsShown<TimeZone<'_>>>(alloc, opens, closing, &clock, ends)
        }
        ClockChanges::Once => {
            gather_by::<_, Once<TimeZone<'_>>>(alloc, opens, closing, &clock, ends)
        }
    }
}

/// The windows that the words name, from START on and before END. The first and the last are cut
/// there, each at the first whole second. `Err` has what [`windows::answer`] would complain of, or
/// says that memory ran out. Zones are searched in `places` and `files`, and at most one file is
/// read.
///
/// [`windows::answer`]: crate::windows::answer
pub fn windows_in<'a, F: ZoneFiles>(
    alloc: Global,
    words: &Words<'a>,
    span: &Span<'a>,
    now: Timestamp,
    places: &Places<'a>,
    files: &mut F,
) -> Result<Vec<Stretch<bool>>, Trouble<'a>>
    ensures { MatchResult result
        (λ list. HasWindows (given F.reads places.now now.nanosecond) words.now span.now
        files.old list.items files.new)
        (λ trouble. HasNoWindows (given F.reads places.now now.nanosecond) words.now span.now
        files.old trouble files.new) }
{
    let sought = match sought_of(alloc, words, places, files) {
        Ok(sought) => sought,
        Err(trouble) => return Err(trouble),
    };
    let zone = sought.subject.zone.time_zone();
    let ends = match ends_of(span, &zone, now) {
        Ok((from, to)) => Ends { from, to },
        Err(trouble) => return Err(trouble),
    };
    match gather_of(alloc, &sought, words.changes, ends, &zone) {
        Ok(list) => Ok(list),
        Err(_) => Err(Trouble::NoMemory),
    }
}
