//! The short form of sets: the canonical text, which means them.

ghost use Rattle.std.specs.Prelude.{◌≡◌, ◌++◌, IfOk, OnOk};
ghost use Rattle.std.specs.String.{string_bytes};
ghost use Rattle.cron_canonical.specs.Short.{sets_text};
ghost use Rattle.cron_text.specs.Meaning.{Means};

use cron::Schedule;
use cron_canonical::text_of;
use cron_units::fields::ScheduleFields;
use std::alloc::{AllocError, Global};

/// Appends the short form of the sets `fields`.
pub(crate) fn push_sets(text: &mut String, fields: &ScheduleFields) -> Result<(), AllocError>
    ensures { OnOk result (string_bytes text.new ≡ string_bytes text.old ++ sets_text fields.now) }
{
    match str::from_utf8(text_of(fields).as_slice()) {
        Ok(short) => text.push_str(short),
        // never, since digits and signs are UTF-8
        Err(_) => Err(AllocError),
    }
}

/// The canonical text of a schedule: seven fields with one space between two. Each is a star, or
/// its runs of numbers as `0-4,30`, with `L` last among the days of the month. It means the sets of
/// the schedule, and two schedules have one canonical text exactly if their sets are the same.
/// `AllocError` if the allocator refuses memory for the text.
pub fn canonical_text(alloc: Global, schedule: &Schedule) -> Result<String, AllocError>
    ensures text { IfOk result (λ text. string_bytes text ≡ sets_text schedule.now.sets) }
    ensures means { IfOk result (λ text. Means (string_bytes text) schedule.now.sets) }
{
    // The source means the sets, so none of them is empty, and their short form means them too.
    let _source = schedule.source();
    let mut text = String::new(alloc);
    push_sets(&mut text, schedule.fields())?;
    Ok(text)
}
