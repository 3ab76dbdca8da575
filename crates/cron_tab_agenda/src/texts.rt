//! The printed text of an entry's fires, made without allocating memory.

ghost use Rattle.std.specs.Prelude.{◌≡◌};
ghost use Rattle.cron_agenda.specs.Fires.{instant};
ghost use Rattle.cron_agenda.specs.Messages.{fire_text};

use cron_agenda::EntryFire;
use cron_dues::fire::due_second;
use cron_dues::text::{self, Text};
use cron_moments::line;
use cron_moments::moment::{Moment, instant_of};

// The printed text of `moment`, as `2022-11-06 01:00:00 -05:00`.
fn moment_text(moment: &Moment) -> Text
    ensures { result.items ≡ fire_text (EntryFire.AsShown moment.now) }
{
    let mut text = Text::new();
    text.try_extend_from_slice(line::text_of(moment).as_slice())
        .unwrap();
    text
}

/// The printed text of `fire`. For a due fire whose nominal time the clock skips, that time
/// follows, as `for 02:30:00`.
pub fn fire_text(fire: &EntryFire) -> Text
    ensures { result.items ≡ fire_text fire.now }
{
    match fire {
        EntryFire::AsShown(moment) => moment_text(moment),
        EntryFire::Once(due) => text::text_of(due),
    }
}

/// The instant of a fire, in seconds since 1970-01-01T00:00:00Z.
pub fn fire_second(fire: &EntryFire) -> i64
    ensures { result ≡ instant fire.now }
{
    match fire {
        EntryFire::AsShown(moment) => instant_of(moment),
        EntryFire::Once(due) => due_second(due),
    }
}
