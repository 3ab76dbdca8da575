//! Expressions of Quartz. Their rows have the fires that Quartz 2.3.2 has after the start of
//! 2024-01-15 in UTC, the days of forms of days, or refusals. The days of 1970 to 2100 are given by
//! their count and the sum of their numbers, where 1970-01-01 has the number 0. Another calendar
//! counted them.

use anyhow::Result;
use cron_fires::{Fires, Union, first_fire_after};
use cron_quartz::read;
use cron_test_rows::Row;
use jiff::Timestamp;
use jiff::tz::TimeZone;

const START: &str = "2024-01-15T00:00:00Z";

const BEFORE_ALL: &str = "1969-12-31T23:59:59Z";

const SECONDS_OF_DAY: i64 = 86_400;

/// Compares as many fires as the row has, or all if there are fewer, with spaces between them.
pub(crate) fn ask_fires(row: &mut Row<'_>) -> Result<()> {
    let read = read(row.cell());
    let Ok(expression) = &read else {
        return row.compare("fires", row.wanted(), "refused");
    };
    let union = Union {
        schedules: expression.as_slice(),
    };
    let mut last = START.parse::<Timestamp>()?;
    for _ in 0..row.wanted().split(' ').count() {
        let Some(fire) = first_fire_after(&union, last, &TimeZone::UTC) else {
            break;
        };
        last = fire.timestamp();
        row.add(" ", &last)?;
    }
    row.compare("fires", row.wanted(), row.answer())
}

/// Compares the count of the days, and the sum of their numbers.
pub(crate) fn ask_days(row: &mut Row<'_>) -> Result<()> {
    let read = read(row.cell());
    let Ok(expression) = &read else {
        return row.compare("days", row.wanted(), "refused");
    };
    let union = Union {
        schedules: expression.as_slice(),
    };
    let start = BEFORE_ALL.parse::<Timestamp>()?;
    let (mut count, mut sum) = (0_u32, 0_i64);
    for fire in Fires::after(&union, start, &TimeZone::UTC) {
        count = count.saturating_add(1);
        sum = sum.saturating_add(fire.timestamp().as_second() / SECONDS_OF_DAY);
    }
    row.add("", &count)?;
    row.add("\t", &sum)?;
    row.check("days")
}

/// Compares the message of the refusal of a text.
pub(crate) fn ask_message(row: &mut Row<'_>) -> Result<()> {
    let read = read(row.cell());
    row.check_refusal(&read)
}

/// Checks that a text is refused.
pub(crate) fn ask_refused(row: &mut Row<'_>) -> Result<()> {
    if read(row.wanted()).is_ok() {
        row.compare("its refusal", "refused", row.wanted())?;
    }
    Ok(())
}
