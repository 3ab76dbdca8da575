//! What the tests share.

use cron::error::{Error, ErrorKind};
use cron::{Schedule, TimeUnitSpec};
use std::fmt::Debug;
use std::process::Abort;

/// An expression that is accepted.
pub(crate) const ACCEPTED: &str = "1 2 3 4 5 ? 2015";

/// Compares an answer with the wanted one.
pub(crate) fn check_same<T: PartialEq + Debug + Copy>(rt: &impl Abort, told: T, wanted: T) {
    assert_eq!(rt; told, wanted);
}

/// The word printed for `tools/refuse_memory` when memory was refused in the call that is tested.
/// The next constant is the word for a refusal before it.
pub(crate) const REFUSED: &str = "refused";

pub(crate) const EARLY: &str = "not set up";

pub(crate) fn tell(rt: &(impl Abort + Print), word: &str) {
    println!(rt; "{word}").expect(rt, "a line");
}

/// Compares an error with the message of a refusal, or prints `REFUSED` if memory ran out.
pub(crate) fn check_error(rt: &(impl Abort + Print), error: &Error, message: &str) {
    match error.kind() {
        ErrorKind::OutOfMemory => tell(rt, REFUSED),
        ErrorKind::Expression(text) => check_same(rt, text.as_str(), message),
    }
}

/// Checks that a schedule is the one of the accepted expression.
pub(crate) fn check_accepted(rt: &impl Abort, schedule: &Schedule) {
    check_same(rt, schedule.source(), ACCEPTED);
    let counts = [
        schedule.seconds().count(),
        schedule.minutes().count(),
        schedule.hours().count(),
        schedule.days_of_month().count(),
        schedule.months().count(),
        schedule.days_of_week().count(),
        schedule.years().count(),
    ];
    check_same(rt, counts, [1, 1, 1, 1, 1, 7, 1]);
    let times = schedule.seconds().includes(1)
        && schedule.minutes().includes(2)
        && schedule.hours().includes(3);
    let days = schedule.days_of_month().includes(4) && schedule.days_of_week().is_all();
    let rest = schedule.months().includes(5) && schedule.years().includes(2015);
    check_same(rt, times && days && rest, true);
}
