//! Entries of one crontab that run the same at the same times.
ghost use Rattle.std.specs.Prelude.{◌≡◌, ◌↔◌, ◌++◌, [], IfOk, IsTrue, OnOk, map};
ghost use Rattle.cron_tab_lines.specs.Files.{file_lines};
ghost use Rattle.cron_tab_comparing.specs.Entries.{entries_in, view};
ghost use Rattle.cron_tab_comparing.specs.Twins.{AreTwins, AreTwinsOf, IsTwinAmong, twins_of};

use crate::entries::{Known, entries_of};
use crate::keys::same;
use cron_tab_lines::{Crontab, Lines};
use cron_units::fields::ScheduleFields;
use std::alloc::{AllocError, Global};

/// An entry that runs the same as one above it, at the same times.
#[derive(Clone, Copy, Debug, PartialEq, Eq)]
pub struct Twin {
    /// The number of the entry's line, from 1 on.
    pub line: usize,
    /// The number of the other's line. It is the first above that is alike.
    pub above: usize,
}

// Returns true if the schedules have the same sets, in the same order.
#[tactic(auto, using(crate::proofs::TwinLemmas::other_sets, crate::proofs::TwinLemmas::sets_on))]
fn have_same_sets(first: &[ScheduleFields], second: &[ScheduleFields]) -> bool
    ensures { IsTrue result ↔ (first.now ≡ second.now) }
{
    let Some((one, rest)) = first.split_first() else {
        return second.is_empty();
    };
    let Some((other, others)) = second.split_first() else {
        return false;
    };
    if one != other {
        return false;
    }
    have_same_sets(rest, others)
}

fn are_twins(first: &Known<'_>, second: &Known<'_>) -> bool
    ensures { IsTrue result ↔ AreTwins (view first.now) (view second.now) }
{
    same(first, second) && have_same_sets(first.schedules.as_slice(), second.schedules.as_slice())
}

// The line of the first of `entries` that is a twin of `one`.
fn twin_among(entries: &[Known<'_>], one: &Known<'_>) -> Option<usize>
    ensures { IsTwinAmong (map view entries.now) (view one.now) result }
{
    for entry in entries {
        if are_twins(entry, one) {
            return Some(entry.line);
        }
    }
    None
}

// Appends an entry with the line `above` of its twin, if it has one.
fn push_twin(twins: &mut Vec<Twin>, one: &Known<'_>, above: Option<usize>) -> Result<(), AllocError>
    ensures { OnOk result (twins.new.items ≡ twins.old.items ++ twins_of (view one.now) above) }
{
    if let Some(above) = above {
        twins.push(Twin {
            line: one.line,
            above,
        })?;
    }
    Ok(())
}

// Those of the entries that have a twin above them, in their order.
fn twins_among(alloc: Global, entries: &[Known<'_>]) -> Result<Vec<Twin>, AllocError>
    ensures { IfOk result (λ twins. AreTwinsOf [] (map view entries.now) twins.items) }
{
    let mut twins = Vec::new(alloc);
    for place in 0..entries.len() {
        let one = &entries[place];
        let above = twin_among(&entries[..place], one);
        push_twin(&mut twins, one, above)?;
    }
    Ok(twins)
}

/// The entries of a crontab that run the same as an entry above, at the same times. They stand in
/// the order of their lines. Each entry is compared with those above it, so the time that it takes
/// grows as the square of their number.
pub fn list_twins(alloc: Global, kind: Crontab, file: &[u8]) -> Result<Vec<Twin>, AllocError>
    ensures { IfOk result (λ twins. AreTwinsOf [] (entries_in [] (file_lines kind file.now))
        twins.items) }
{
    let entries = entries_of(alloc, Lines::of(kind, file))?;
    twins_among(alloc, entries.as_slice())
}
