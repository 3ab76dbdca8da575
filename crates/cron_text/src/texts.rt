//! Whole texts: a shorthand, or six fields and perhaps a seventh of years.

ghost use Rattle.std.specs.Prelude.{◌≡◌, ◌≤◌, [], List, false, length, drop, IsTrue, OnErr, OnOk};
ghost use Rattle.cron_text.specs.Fault.{IsRefusal};
ghost use Rattle.cron_text.specs.FaultText.{fault_text};
ghost use Rattle.cron_text.specs.Inner.Places.{IsPlace, tokens_from};
ghost use Rattle.cron_text.specs.Inner.TextReading.{IsRefusalOf};
ghost use Rattle.cron_units.specs.Units.{FieldSet, unmarked};
ghost use Rattle.cron_text.specs.Meaning.{DenoteYears, DenoteSets, Means, MeansNothing, six_units, field_sets, shorthand_of, trimmed_end};

use super::faults::Fault;
use super::field_texts::{Unread, read_field};
use super::shorthands::shorthand_named;
use super::tokens::{Place, skip_space, trimmed_end};
use cron_units::fields::ScheduleFields;
use cron_units::time_unit::{Years, empty, whole};

/// The sets of the shorthand that begins at the index `at`. `None` if the rest of the text is no
/// shorthand. White space may follow the shorthand.
#[inline(always)]
fn shorthand_at(text: &[u8], at: usize) -> Option<ScheduleFields>
    requires { at ≤ length text.now }
    ensures { result ≡ shorthand_of (trimmed_end (drop at text.now)) }
{
    if at >= text.len() {
        return None;
    }
    if text[at] != b'@' {
        return None;
    }
    shorthand_named(trimmed_end(&text[at..]))
}

/// Reads the years after the six fields. All years are meant if no text is left. A refused field of
/// years has no message of its own: its fault is `Fault::Syntax`.
fn read_years<'a>(
    text: &'a str,
    start: Place,
    years: &mut Years,
    fault: &mut Fault<'a>,
) -> Result<(), Unread>
    requires { IsPlace text.now start }
    ensures years { OnOk result (DenoteYears (tokens_from text.now start) (unmarked years.new)) }
    ensures refused { OnErr result
        (IsRefusalOf [] (tokens_from text.now start) (fault_text fault.new)) }
{
    if start.at >= text.len() {
        *years = whole();
        return Ok(());
    }
    let mut place = start;
    match read_field(text, &mut place, years, fault) {
        Ok(()) => {}
        Err(Unread) => {
            *fault = Fault::Syntax;
            return Err(Unread);
        }
    }
    if place.at < text.len() {
        *fault = Fault::Syntax;
        return Err(Unread);
    }
    Ok(())
}

/// Seven empty sets.
pub fn no_ordinals() -> ScheduleFields
    ensures { result ≡ record {
      seconds = [];
      minutes = [];
      hours = [];
      days_of_month = unmarked [];
      months = [];
      days_of_week = [];
      years = [];
    } }
{
    ScheduleFields {
        seconds: empty(),
        minutes: empty(),
        hours: empty(),
        days_of_month: empty(),
        months: empty(),
        days_of_week: empty(),
        years: empty(),
    }
}

/// Reads six fields, and years if there are any.
#[inline(never)]
fn read_fields<'a>(
    text: &'a str,
    start: Place,
    fields: &mut ScheduleFields,
    fault: &mut Fault<'a>,
) -> Result<(), Unread>
    requires { IsPlace text.now start }
    ensures sets { OnOk result
        (DenoteSets six_units (tokens_from text.now start) (field_sets fields.new)) }
    ensures refused { OnErr result
        (IsRefusalOf six_units (tokens_from text.now start) (fault_text fault.new)) }
{
    let mut place = start;
    read_field(text, &mut place, &mut fields.seconds, fault)?;
    read_field(text, &mut place, &mut fields.minutes, fault)?;
    read_field(text, &mut place, &mut fields.hours, fault)?;
    read_field(text, &mut place, &mut fields.days_of_month, fault)?;
    read_field(text, &mut place, &mut fields.months, fault)?;
    read_field(text, &mut place, &mut fields.days_of_week, fault)?;
    read_years(text, place, &mut fields.years, fault)?;
    Ok(())
}

/// Reads six fields, and years if there are any. Returns true if they are read. It is a function of
/// its own, so that a shorthand doesn't pay for the room that a fault takes. The fault isn't
/// returned. Most texts have none, and a caller that wants it calls `fault_of`.
#[inline(never)]
fn longhand(text: &str, start: Place, fields: &mut ScheduleFields) -> bool
    requires { IsPlace text.now start }
    ensures sets { IsTrue result
        → DenoteSets six_units (tokens_from text.now start) (field_sets fields.new) }
    ensures nothing { result ≡ false
        → (xss : List FieldSet)
        → DenoteSets six_units (tokens_from text.now start) xss
        → ⊥ }
{
    let mut fault = Fault::Syntax;
    match read_fields(text, start, fields, &mut fault) {
        Ok(()) => true,
        Err(Unread) => false,
    }
}

/// Reads `text` into seven sets, and returns true if it means a schedule. If it returns false, the
/// sets mean nothing. Allocates no memory.
pub fn read_into(text: &str, fields: &mut ScheduleFields) -> bool
    ensures sets { IsTrue result → Means text.now fields.new }
    ensures nothing { result ≡ false → MeansNothing text.now }
{
    let bytes = text.as_bytes();
    let start = skip_space(bytes, 0);
    match shorthand_at(bytes, start.at) {
        Some(named) => {
            *fields = named;
            true
        }
        None => longhand(text, start, fields),
    }
}

/// Returns why `text` means nothing. Allocates no memory.
pub fn fault_of(text: &str) -> Fault<'_>
    requires { MeansNothing text.now }
    ensures { IsRefusal text.now (fault_text result) }
{
    let start = skip_space(text.as_bytes(), 0);
    let mut fields = no_ordinals();
    let mut fault = Fault::Syntax;
    let _unread = read_fields(text, start, &mut fields, &mut fault);
    fault
}
