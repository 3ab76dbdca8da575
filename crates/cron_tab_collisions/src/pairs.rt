//! The rows of all pairs of entries that collide: a fire of one begins before a fire of the other
//! ends, and the other way round. Each fire lasts `length` seconds.
ghost use Rattle.std.specs.Prelude.{◌≡◌, IfOk, OnOk, map};
ghost use Rattle.cron_agenda.specs.Fires.{instant};
ghost use Rattle.cron_collisions.specs.Collisions.{Ascends};
ghost use Rattle.cron_tab_fires.specs.Entries.{seconds, view};
ghost use Rattle.cron_tab_fires.specs.Laws.{AllAscend};
ghost use Rattle.cron_tab_collisions.specs.Collisions.{TellsAll, TellsPair, TellsWith};
ghost use Rattle.cron_replies.specs.Inner.Telling.{AppendsTold};

use crate::rows::{later, push_row};
use cron_agenda::EntryFire;
use cron_collisions::collisions_of;
use cron_replies::form::Form;
use cron_tab_agenda::fire_second;
use cron_tab_fires::TabFires;
use std::alloc::{AllocError, Global};

// The instants of fires, in seconds since 1970-01-01T00:00:00Z.
fn seconds_of(alloc: Global, fires: &[EntryFire]) -> Result<Vec<i64>, AllocError>
    ensures { IfOk result (λ seconds. seconds.items ≡ map instant fires.now) }
{
    let mut seconds = Vec::new(alloc);
    for fire in fires {
        seconds.push(fire_second(fire))?;
    }
    Ok(seconds)
}

// Appends the row of two entries, if they collide where each fire lasts `length` seconds.
fn tell_pair(
    alloc: Global,
    form: Form,
    length: u64,
    first: &TabFires<'_>,
    second: &TabFires<'_>,
    report: &mut Vec<u8>,
) -> Result<(), AllocError>
    requires first { Ascends (seconds (view first.now)) }
    requires second { Ascends (seconds (view second.now)) }
    ensures { OnOk result (AppendsTold (TellsPair form length (view first.now) (view second.now))
        report.old.items report.new.items) }
{
    let starts = seconds_of(alloc, first.fires.as_slice())?;
    let others = seconds_of(alloc, second.fires.as_slice())?;
    let Some(found) = collisions_of(starts.as_slice(), others.as_slice(), length) else {
        return Ok(());
    };
    let fire = later(first.fires[found.first], second.fires[found.second]);
    push_row(alloc, report, form, first, second, &fire, found.pairs)?;
    Ok(())
}

// Appends a row for each of `others` that collides with `first`, where each fire lasts `length`
// seconds.
fn tell_with(
    alloc: Global,
    form: Form,
    length: u64,
    first: &TabFires<'_>,
    others: &[TabFires<'_>],
    report: &mut Vec<u8>,
) -> Result<(), AllocError>
    requires first { Ascends (seconds (view first.now)) }
    requires others { AllAscend (map view others.now) }
    ensures { OnOk result (AppendsTold (TellsWith form length (view first.now) (map view others.now))
        report.old.items report.new.items) }
{
    for other in others {
        tell_pair(alloc, form, length, first, other, report)?;
    }
    Ok(())
}

/// Appends a row for each pair of entries that collide, where each fire lasts `length` seconds.
pub(crate) fn tell_all(
    alloc: Global,
    form: Form,
    length: u64,
    entries: &[TabFires<'_>],
    report: &mut Vec<u8>,
) -> Result<(), AllocError>
    requires { AllAscend (map view entries.now) }
    ensures { OnOk result (AppendsTold (TellsAll form length (map view entries.now))
        report.old.items report.new.items) }
{
    for place in 0..entries.len() {
        tell_with(
            alloc,
            form,
            length,
            &entries[place],
            &entries[place + 1..],
            report,
        )?;
    }
    Ok(())
}
