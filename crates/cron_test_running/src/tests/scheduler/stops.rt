//! What a stop prints.

use crate::tests::check_same;
use cron_scheduler::Stop;

// Checks what stops by a clock and by a job print, with and without a width.
#[test]
fn a_stop_prints_as_the_error_that_it_holds(rt: HostRuntime) {
    let clock: Stop<&str, u8> = Stop::Clock("no time");
    let job: Stop<&str, u8> = Stop::Job(7);
    let shown = format!(in rt.alloc(); "{clock}, {job}, {clock:>8}, {job:03}");
    let shown = shown.expect(&rt, "memory");
    check_same(&rt, &"stops", shown.as_str(), "no time, 7,  no time, 007");
}
