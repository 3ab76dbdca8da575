//! A check of lines, which takes memory.

use super::support::{REFUSED, check_same, tell};
use cron_checking::check::{Outcome, check};
use cron_checking::line::{Mode, Telling};
use cron_writer::watched::Watched;
use jiff::tz::TimeZone;
use std::io::Cursor;

const FILE: &str = "@daily\n60 * * * * *\n\n0 30 9-17 15,L 1-6 Mon-Fri 2024-2030\n";

// The report on the lines of `FILE`: their first fires after the beginning of 2024, whose 15
// January is a Monday, and why a line is refused.
const TOLD: [&str; 3] = [
    "1: 2024-01-02 00:00:00 +00:00\n",
    "2: Seconds must be less than 59. ('60' specified.)\n",
    "4: 2024-01-15 09:30:00 +00:00\n",
];

// Removes the lines of `TOLD` from the beginning of a text, up to the first that it lacks. Returns
// how many were there, and the rest of the text.
fn past_lines(mut text: &str) -> (usize, &str) {
    let mut count = 0_usize;
    for line in TOLD {
        let Some(rest) = text.strip_prefix(line) else {
            break;
        };
        count = count.saturating_add(1);
        text = rest;
    }
    (count, text)
}

#[test]
fn check_of_three_lines(rt: HostRuntime) {
    let start = "2024-01-01T00:00:00Z".parse().expect(&rt, "an instant");
    let how = Telling {
        front: "",
        mode: Mode::Next(start, TimeZone::UTC),
    };
    let mut room = [0_u8; 256];
    let mut reader = FILE.as_bytes();
    let mut out = Watched::new(Cursor::new(room.as_mut_slice()));
    let end = check(rt.alloc(), &how, &mut reader, &mut out);
    let told = str::from_utf8(&room).expect(&rt, "text");
    let (count, rest) = past_lines(told.trim_end_matches('\0'));
    if end == Outcome::OutOfMemory {
        check_same(&rt, rest, "error: out of memory\n");
        return tell(&rt, REFUSED);
    }
    check_same(&rt, end, Outcome::SomeRefused);
    check_same(&rt, (count, rest), (TOLD.len(), ""));
}
