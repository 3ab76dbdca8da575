//! Answers the subcommand `compare`: writes the first civil second that only one of two expressions
//! matches.

ghost use Rattle.std.specs.Prelude.{◌≡◌, ◌||◌, false, IfOk};
ghost use Rattle.std.specs.String.{string_bytes};
ghost use Rattle.cron_writer.specs.Watching.{has_failed};
ghost use Rattle.cron_answers.specs.Pairs.{Compares, difference_row, difference_status, difference_text};
ghost use Rattle.cron_replies.specs.Statuses.{is_write_failure, Reports};

use crate::pair::{Pair, matches_second, read_both, send_text, tell_no_memory};
use crate::trouble::tell;
use cron_comparing::difference::first_difference;
use cron_moments::civil::civil_of;
use cron_replies::form::Form;
use cron_replies::status::Status;
use cron_units::fields::ScheduleFields;
use cron_writer::watchable::Watchable;
use cron_writer::watched::Watched;
use std::alloc::{AllocError, Global};

// The status of the subcommand: `Done` if there is no difference, else `No`.
fn difference_status(found: Option<u32>) -> Status
    ensures status { result ≡ difference_status found }
    ensures done { is_write_failure result ≡ false }
{
    match found {
        Some(_) => Status::No,
        None => Status::Done,
    }
}

// The line of a difference: its civil second, and whether the first or the second expression
// matches it.
fn difference_row(
    alloc: Global,
    form: Form,
    union: &[ScheduleFields],
    second: u32,
) -> Result<String, AllocError>
    ensures { IfOk result (λ row. string_bytes row ≡ difference_row form union.now second) }
{
    let at = civil_of(second);
    let first = matches_second(union, second);
    match form {
        Form::Text if first => format!(in alloc; "{at}: the first alone\n"),
        Form::Text => format!(in alloc; "{at}: the second alone\n"),
        Form::Json if first => format!(in alloc; "{{\"at\":\"{at}\",\"alone\":\"first\"}}\n"),
        Form::Json => format!(in alloc; "{{\"at\":\"{at}\",\"alone\":\"second\"}}\n"),
    }
}

// The line of the first difference. It is empty if there is none.
fn difference_text(
    alloc: Global,
    form: Form,
    union: &[ScheduleFields],
    found: Option<u32>,
) -> Result<String, AllocError>
    ensures { IfOk result (λ text. string_bytes text ≡ difference_text form union.now found) }
{
    match found {
        Some(second) => difference_row(alloc, form, union, second),
        None => Ok(String::new(alloc)),
    }
}

/// Compares two expressions. The status is `Done` if they match the same civil seconds. Else it is
/// `No`, and the first civil second that only one of them matches is written. No call of the
/// writers may have failed before.
pub fn compare<W: Watchable, C: Watchable>(
    alloc: Global,
    pair: &Pair<'_>,
    out: &mut Watched<W>,
    complaints: &mut Watched<C>,
) -> Status
    requires out { has_failed out.old ≡ false }
    requires complaints { has_failed complaints.old ≡ false }
    ensures tells { Compares pair.now
        (Reports W.contents W.writes W.flushes) (Reports C.contents C.writes C.flushes)
        (out.old, complaints.old) result (out.new, complaints.new) }
    ensures mark { (has_failed out.new || has_failed complaints.new) ≡ is_write_failure result }
{
    let both = match read_both(pair) {
        Ok(both) => both,
        Err(trouble) => return tell(alloc, &trouble, complaints),
    };
    let union = both.first.as_slice();
    let found = first_difference(union, both.second.as_slice());
    match difference_text(alloc, pair.form, union, found) {
        Ok(text) => send_text(text.as_str(), difference_status(found), out),
        Err(_) => tell_no_memory(complaints),
    }
}
