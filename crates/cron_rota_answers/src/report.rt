//! The report on a rota.

ghost use Rattle.std.specs.Prelude.{◌≡◌, IfOk, false, option_map, true};
ghost use Rattle.jiff.specs.Words.{plain_zone};
ghost use Rattle.cron_replies.specs.Statuses.{is_write_failure};
ghost use Rattle.cron_rotas.specs.Rotas.{is_rota, on_duty, shifts_between};
ghost use Rattle.cron_stretches.specs.Fires.{instants, second_of};
ghost use Rattle.cron_tab_lines.specs.Views.{bytes_view};
ghost use Rattle.cron_rota_answers.specs.People.{texts};
ghost use Rattle.cron_rota_answers.specs.Reports.{IsReport, duty_of, handovers_by};
ghost use Rattle.cron_rota_answers.specs.Rows.{AreRows, IsWhoRow, name_of, who_status};

use crate::rows::{name_of, push_shift, who_row};
use cron_fires::{AsShown, CivilSeconds, ClockChanges, Once, Rule, Union};
use cron_replies::form::Form;
use cron_replies::status::Status;
use cron_rotas::rota::Rota;
use cron_rotas::swap::Swap;
use cron_stretches::fires::second_of;
use cron_units::fields::ScheduleFields;
use jiff::Timestamp;
use jiff::tz::TimeZone;
use std::alloc::{AllocError, Global};

/// What is asked of a rota.
#[derive(Clone, Copy)]
pub(crate) enum Asked {
    /// The shifts from the first instant on and before the second.
    Between(Timestamp, Timestamp),
    /// Who is on duty at the instant.
    At(Timestamp),
}

/// How the answer is written: its form, the names of the people, and the zone of times.
#[derive(Clone, Copy)]
pub(crate) struct Words<'a> {
    pub(crate) form: Form,
    pub(crate) names: &'a [&'a str],
    pub(crate) zone: &'a TimeZone<'a>,
}

/// The people of a rota, when it starts, and its swaps.
#[derive(Clone, Copy)]
pub(crate) struct Duty<'a> {
    pub(crate) people: u32,
    pub(crate) start: Timestamp,
    pub(crate) swaps: &'a [Swap],
}

/// An answer: the rows, and the status.
#[derive(Drop)]
pub(crate) struct Report {
    pub(crate) rows: Vec<u8>,
    pub(crate) status: Status,
}

// The rows of the shifts between two instants.
fn shift_rows<S: CivilSeconds, R: Rule>(
    alloc: Global,
    rota: &Rota<'_, S, R>,
    words: &Words<'_>,
    from: Timestamp,
    to: Timestamp,
) -> Result<Vec<u8>, AllocError>
    ensures { IfOk result (λ rows. AreRows words.now.form (plain_zone words.now.zone.now)
        (texts words.now.names.now)
        (shifts_between rota.now (second_of from.nanosecond) (second_of to.nanosecond)) rows.items) }
{
    // (by its contract each of these is an instant, and so are the ends of shifts between them)
    let (_from, _to) = (second_of(from), second_of(to));
    let mut rows = Vec::new(alloc);
    for shift in rota.shifts(from, to) {
        push_shift(
            alloc,
            &mut rows,
            words.form,
            words.names,
            &shift,
            words.zone,
        )?;
    }
    Ok(rows)
}

fn who_status(who: Option<&str>) -> Status
    ensures status { result ≡ who_status (bytes_view who.entry) }
    ensures done { is_write_failure result ≡ false }
{
    match who {
        Some(_) => Status::Done,
        None => Status::No,
    }
}

// The name of who is on duty at an instant.
fn name_on_duty<'n, S: CivilSeconds, R: Rule>(
    rota: &Rota<'_, S, R>,
    names: &[&'n str],
    at: Timestamp,
) -> Option<&'n str>
    ensures { bytes_view result ≡ option_map (name_of (texts names.now))
        (on_duty rota.now (second_of at.nanosecond)) }
{
    match rota.who(at) {
        Some(person) => Some(name_of(names, person)),
        None => None,
    }
}

// Says who is on duty at an instant.
fn who_report<S: CivilSeconds, R: Rule>(
    alloc: Global,
    rota: &Rota<'_, S, R>,
    words: &Words<'_>,
    at: Timestamp,
) -> Result<Report, AllocError>
    ensures { IfOk result (λ report.
        let who = option_map (name_of (texts words.now.names.now))
        (on_duty rota.now (second_of at.nanosecond)) in
        IsWhoRow words.now.form (plain_zone words.now.zone.now) (second_of at.nanosecond) who
        report.rows.items × (report.status ≡ who_status who)) }
{
    let who = name_on_duty(rota, words.names, at);
    let rows = who_row(alloc, words.form, second_of(at), who, words.zone)?;
    Ok(Report {
        rows,
        status: who_status(who),
    })
}

// The report on a rota.
fn report_of<S: CivilSeconds, R: Rule>(
    alloc: Global,
    rota: &Rota<'_, S, R>,
    words: &Words<'_>,
    asked: &Asked,
) -> Result<Report, AllocError>
    ensures { IfOk result (λ report. IsReport words.now.form (plain_zone words.now.zone.now)
        (texts words.now.names.now) asked.now rota.now report.rows.items report.status) }
{
    match *asked {
        Asked::Between(from, to) => {
            let rows = shift_rows(alloc, rota, words, from, to)?;
            Ok(Report {
                rows,
                status: Status::Done,
            })
        }
        Asked::At(at) => who_report(alloc, rota, words, at),
    }
}

pub(crate) fn rota_of<'a, S: CivilSeconds, R: Rule>(
    duty: &Duty<'a>,
    handovers: S,
    clock: &'a R::Clock,
) -> Rota<'a, S, R>
    requires { is_rota duty.now.people duty.now.swaps.now ≡ true }
    ensures { result ≡ duty_of duty.now.people duty.now.start.nanosecond
        (instants R.at (R.fires (S.has handovers) clock.now)) duty.now.swaps.now }
{
    Rota::of(duty.people, handovers, duty.start, duty.swaps, clock).unwrap()
}

/// The report on a rota whose handovers are the fires of some schedules, by the rule `changes`.
pub(crate) fn report_by(
    alloc: Global,
    duty: &Duty<'_>,
    changes: ClockChanges,
    schedules: &[ScheduleFields],
    words: &Words<'_>,
    asked: &Asked,
) -> Result<Report, AllocError>
    requires { is_rota duty.now.people duty.now.swaps.now ≡ true }
    ensures { IfOk result (λ report. IsReport words.now.form (plain_zone words.now.zone.now)
        (texts words.now.names.now) asked.now
        (duty_of duty.now.people duty.now.start.nanosecond
        (handovers_by changes schedules.now (plain_zone words.now.zone.now)) duty.now.swaps.now)
        report.rows.items report.status) }
{
    let handovers = Union { schedules };
    match changes {
        ClockChanges::AsShown => {
            let rota = rota_of::<_, AsShown<TimeZone<'_>>>(duty, &handovers, words.zone);
            report_of(alloc, &rota, words, asked)
        }
        ClockChanges::Once => {
            let rota = rota_of::<_, Once<TimeZone<'_>>>(duty, &handovers, words.zone);
            report_of(alloc, &rota, words, asked)
        }
    }
}
