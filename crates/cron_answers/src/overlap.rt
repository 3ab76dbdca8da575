//! Answers the subcommand `overlap`: writes the first civil second that two expressions both match.

ghost use Rattle.std.specs.Prelude.{◌≡◌, ◌||◌, false, IfOk};
ghost use Rattle.std.specs.String.{string_bytes};
ghost use Rattle.cron_writer.specs.Watching.{has_failed};
ghost use Rattle.cron_answers.specs.Pairs.{Overlaps, common_row, common_status, common_text};
ghost use Rattle.cron_replies.specs.Statuses.{is_write_failure, Reports};

use crate::pair::{Pair, read_both, send_text, tell_no_memory};
use crate::trouble::tell;
use cron_comparing::common::first_common;
use cron_moments::civil::civil_of;
use cron_replies::form::Form;
use cron_replies::status::Status;
use cron_writer::watchable::Watchable;
use cron_writer::watched::Watched;
use std::alloc::{AllocError, Global};

// The status of the subcommand: `Done` if both expressions match some civil second, else `No`.
fn common_status(found: Option<u32>) -> Status
    ensures status { result ≡ common_status found }
    ensures done { is_write_failure result ≡ false }
{
    match found {
        Some(_) => Status::Done,
        None => Status::No,
    }
}

// The line of a civil second that both expressions match.
fn common_row(alloc: Global, form: Form, second: u32) -> Result<String, AllocError>
    ensures { IfOk result (λ row. string_bytes row ≡ common_row form second) }
{
    let at = civil_of(second);
    match form {
        Form::Text => format!(in alloc; "{at}\n"),
        Form::Json => format!(in alloc; "{{\"at\":\"{at}\"}}\n"),
    }
}

// The line of the first civil second that both expressions match. It is empty if there is none.
fn common_text(alloc: Global, form: Form, found: Option<u32>) -> Result<String, AllocError>
    ensures { IfOk result (λ text. string_bytes text ≡ common_text form found) }
{
    match found {
        Some(second) => common_row(alloc, form, second),
        None => Ok(String::new(alloc)),
    }
}

/// Writes the first civil second that two expressions both match. The status is `Done`, or `No` if
/// there is no such second. No call of the writers may have failed before.
pub fn overlap<W: Watchable, C: Watchable>(
    alloc: Global,
    pair: &Pair<'_>,
    out: &mut Watched<W>,
    complaints: &mut Watched<C>,
) -> Status
    requires out { has_failed out.old ≡ false }
    requires complaints { has_failed complaints.old ≡ false }
    ensures tells { Overlaps pair.now
        (Reports W.contents W.writes W.flushes) (Reports C.contents C.writes C.flushes)
        (out.old, complaints.old) result (out.new, complaints.new) }
    ensures mark { (has_failed out.new || has_failed complaints.new) ≡ is_write_failure result }
{
    let both = match read_both(pair) {
        Ok(both) => both,
        Err(trouble) => return tell(alloc, &trouble, complaints),
    };
    let found = first_common(both.first.as_slice(), both.second.as_slice());
    match common_text(alloc, pair.form, found) {
        Ok(text) => send_text(text.as_str(), common_status(found), out),
        Err(_) => tell_no_memory(complaints),
    }
}
