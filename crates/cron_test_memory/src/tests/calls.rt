//! The calls of a schedule and of a walk that take memory.

use super::support::{ACCEPTED, EARLY, REFUSED, check_accepted, check_error, check_same, tell};
use cron::Schedule;
use cron::schedule::{Moment, Turn};
use cron_checking::short::canonical_text;
use jiff::Timestamp;
use jiff::civil::date;
use jiff::tz::TimeZone;
use serde_json::Value;
use std::process::Abort;

pub(super) fn start(rt: &impl Abort) -> Timestamp {
    "2015-01-01T00:00:00Z".parse().expect(rt, "an instant")
}

// Checks that an answer is the only item of the accepted expression.
fn check_item(rt: &impl Abort, answer: Option<Moment>) {
    let shown = answer.map(|moment| moment.datetime());
    check_same(rt, shown, Some(date(2015, 5, 4).at(3, 2, 1, 0)));
}

#[test]
fn play(rt: HostRuntime) {
    let Ok(schedule) = Schedule::from_str(rt.alloc(), ACCEPTED) else {
        return tell(&rt, EARLY);
    };
    let mut walk = schedule.after(start(&rt), &TimeZone::UTC);
    match walk.play(rt.alloc(), &[Turn::Next]) {
        Ok(answers) => {
            check_same(&rt, answers.len(), 1);
            for answer in answers.iter() {
                check_item(&rt, *answer);
            }
            check_same(&rt, walk.next(), None);
        }
        Err(_refused) => {
            tell(&rt, REFUSED);
            check_item(&rt, walk.next());
        }
    }
}

// The calls that copy a schedule.
#[test]
fn copies(rt: HostRuntime) {
    let Ok(schedule) = Schedule::from_str(rt.alloc(), ACCEPTED) else {
        return tell(&rt, EARLY);
    };
    match schedule.clone() {
        Ok(copy) => check_accepted(&rt, &copy),
        Err(_refused) => tell(&rt, REFUSED),
    }
    let start = start(&rt);
    for walk in [
        schedule.after_owned(start, TimeZone::UTC),
        schedule.upcoming_owned(start, TimeZone::UTC),
    ] {
        match walk {
            Ok(mut walk) => check_item(&rt, walk.next()),
            Err(_refused) => tell(&rt, REFUSED),
        }
    }
    check_accepted(&rt, &schedule);
}

// The calls that make a text of a schedule.
#[test]
fn texts(rt: HostRuntime) {
    let Ok(schedule) = Schedule::from_str(rt.alloc(), ACCEPTED) else {
        return tell(&rt, EARLY);
    };
    match schedule.to_value(rt.alloc()) {
        Ok(value) => check_same(&rt, value.as_str(), Some(ACCEPTED)),
        Err(error) => check_error(&rt, &error, "only memory can be wanting"),
    }
    match canonical_text(rt.alloc(), &schedule) {
        Ok(text) => check_same(&rt, text.as_str(), "1 2 3 4 5 * 2015"),
        Err(_refused) => tell(&rt, REFUSED),
    }
    check_accepted(&rt, &schedule);
}

#[test]
fn from_value_of_null(rt: HostRuntime) {
    match Schedule::from_value(rt.alloc(), &Value::Null) {
        Ok(_read) => check_same(&rt, "read", "refused"),
        Err(error) => check_error(
            &rt,
            &error,
            "invalid type, expected a valid cron expression",
        ),
    }
}
