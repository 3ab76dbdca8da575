//! The clock of the machine, over a clock of the runtime that is handed in.

use crate::tests::check_same;
use cron::Schedule;
use cron::schedule::Moment;
use cron_scheduler::{AlarmClock, MachineClock, Plan, Start};
use jiff::tz::TimeZone;
use std::alloc::AllocError;
use std::cell::Cell;
use std::io;
use std::rt::Clock;
use std::time::Duration;

// A clock of a runtime that shows seconds, and counts its sleeps.
#[derive(Drop)]
struct Counting {
    seconds: Cell<u64>,
    sleeps: Cell<u32>,
}

impl Clock for Counting {
    fn monotonic(&self) -> io::Result<Duration> {
        Ok(Duration::from_secs(self.seconds.get()))
    }

    fn since_1970(&self) -> io::Result<Duration> {
        Ok(Duration::from_secs(self.seconds.get()))
    }

    fn sleep(&self, duration: Duration) {
        self.seconds
            .set(self.seconds.get().saturating_add(duration.as_secs()));
        self.sleeps.set(self.sleeps.get().saturating_add(1));
    }
}

#[test]
fn it_wakes_each_minute_until_the_fire(rt: HostRuntime) {
    let counting = Counting {
        seconds: Cell::new(1790),
        sleeps: Cell::new(0),
    };
    let schedule = Schedule::from_str(rt.alloc(), "0 0 * * * *").expect(&rt, "a schedule");
    let mut clock = MachineClock(&counting);
    check_same(
        &rt,
        &"its time",
        clock.now().expect(&rt, "a time").as_second(),
        1790,
    );
    let plan = Plan {
        table: &schedule,
        zone: &TimeZone::UTC,
        start: Start::After(clock.now().expect(&rt, "a time")),
        most: Some(2),
    };
    let mut fires = Vec::new(rt.alloc());
    plan.run(
        &mut clock,
        &mut |fire: Moment| -> Result<(), AllocError> {
            Ok(fires.push(fire.timestamp().as_second())?)
        },
    )
    .expect(&rt, "a run");
    check_same(&rt, &"its fires", fires.as_slice(), [3600, 7200].as_slice());
    check_same(&rt, &"its sleeps", counting.sleeps.get(), 31 + 60);
}
