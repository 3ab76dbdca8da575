//! The line of an item, as `2022-11-06 01:30:00 -05:00`, which is changed into the line of another:
//! within a minute two digits change, within a day six. The type's invariant says that the bytes
//! are the item's line, so contracts speak of the item only.

ghost use Rattle.std.specs.Prelude.{◌≡◌, ◌≤◌, ◌<◌, ◌++◌, ◌+◌, ℕ, List, Option, take};
ghost use Rattle.cron_moments.specs.MomentText.{item_line};
ghost use Rattle.cron_walk_listing.specs.Digits.{with_two_digits};
ghost use Rattle.cron_writer.specs.Calls.{AreWrites, Gathers};
ghost use Rattle.cron_writer.specs.Watching.{has_failed, kept_in, writer_of, IsGathered};

use cron::schedule::Moment;
use cron_moments::civil::SECONDS_PER_DAY;
use cron_moments::line::line_of;
use cron_moments::moment::{civil_second, moment_numbered};
use cron_writer::gathered::{Gathered, WIDTH};
use cron_writer::watchable::Watchable;
use cron_writer::watched::Watched;
use jiff::tz::Offset;
use std::marker::Model;

/// The places of the first digits of the hour, of the minute and of the second in a line.
const HOUR: usize = 11;

const MINUTE: usize = 14;

const SECOND: usize = 17;

/// An item, and its line at the front of an array.
#[derive(Drop)]
pub(crate) struct KeptLine {
    moment: Moment,
    bytes: [u8; WIDTH],
    len: usize,
}

impl Model for KeptLine {
    ghost use Rattle.std.specs.Prelude.{◌≡◌, ◌≤◌, take};
    ghost use Rattle.cron_moments.specs.MomentText.{item_line};
    ghost use Rattle.cron_moments.specs.Readings.{Reading};

    ghost Value = { Reading };

    ghost view = { λ k. k.moment };

    ghost invariant = { λ k. (k.len ≤ 32) × (take k.len k.bytes ≡ item_line k.moment) };
}

// Writes the last two digits of `number` to the places `at` and `at + 1`.
#[inline(always)]
fn put_two(bytes: &mut [u8; WIDTH], at: usize, number: u32)
    requires { at < 31 }
    ensures { bytes.new ≡ with_two_digits bytes.old at number }
{
    bytes[at] = b'0' + (number / 10 % 10) as u8;
    bytes[at + 1] = b'0' + (number % 10) as u8;
}

impl KeptLine {
    /// The line of the first civil second of 1970 in UTC, which `show` changes.
    pub(crate) fn new() -> KeptLine {
        KeptLine::of(&moment_numbered(0, Offset::UTC))
    }

    // The line of an item, made anew.
    #[inline(never)]
    fn of(moment: &Moment) -> KeptLine
        ensures { result ≡ moment.now }
    {
        let line = line_of(moment);
        let text = line.as_slice();
        let len = text.len();
        let mut bytes = [0; WIDTH];
        bytes[..len].copy_from_slice(text);
        KeptLine {
            moment: *moment,
            bytes,
            len,
        }
    }

    /// Changes the line into the line of `moment`.
    #[inline(always)]
    pub(crate) fn show(&mut self, moment: &Moment)
        ensures { self.new ≡ moment.now }
    {
        let (was, now) = (civil_second(&self.moment), civil_second(moment));
        if now / SECONDS_PER_DAY != was / SECONDS_PER_DAY
            || moment.offset() != self.moment.offset()
        {
            *self = KeptLine::of(moment);
            return;
        }
        if now / 60 != was / 60 {
            put_two(&mut self.bytes, HOUR, now % SECONDS_PER_DAY / 3600);
            put_two(&mut self.bytes, MINUTE, now % 3600 / 60);
        }
        put_two(&mut self.bytes, SECOND, now % 60);
        self.moment = *moment;
    }

    /// Appends the line to the gathered lines.
    #[inline(always)]
    pub(crate) fn push_to<W: Watchable>(&self, lines: &mut Gathered, out: &mut Watched<W>)
        ensures gathered { (origin : Option (List ℕ)) (before : List ℕ)
            → IsGathered origin
            (W.contents (writer_of out.old)) (has_failed out.old) (kept_in lines.old) before
            → IsGathered origin
            (W.contents (writer_of out.new)) (has_failed out.new) (kept_in lines.new)
            (before ++ item_line self.now) }
        ensures calls { AreWrites W.writes
            (writer_of out.old) (has_failed out.old) (writer_of out.new) (has_failed out.new) }
        ensures gathers { Gathers W.writes out.old out.new
            (kept_in lines.old) (kept_in lines.new) (item_line self.now) }
    {
        lines.push_short(&self.bytes, self.len, out);
    }
}
