//! What the end of a run prints.

use crate::tests::check_same;
use cron_agenda_scheduler::AgendaStop;
use cron_printing::printer::WriteFailed;

// Checks what an end by the clock and one by a write print, with and without a width.
#[test]
fn an_end_prints_as_the_error_that_it_holds(rt: HostRuntime) {
    let clock: AgendaStop<&str, WriteFailed> = AgendaStop::Clock("no time");
    let job: AgendaStop<&str, WriteFailed> = AgendaStop::Job(WriteFailed);
    let shown = format!(in rt.alloc(); "{clock}\n{clock:>8}\n{job}\n{WriteFailed}");
    let shown = shown.expect(&rt, "memory");
    check_same(
        &rt,
        &"ends",
        shown.as_str(),
        "no time\n no time\na write failed\na write failed",
    );
}
