//! Crontabs, when they fire, and what their notes are.

use std::process::Abort;

/// Midnight in UTC, at 2024-01-01T00:00:00Z, in seconds since 1970.
pub(super) const MIDNIGHT: i64 = 1_704_067_200;

/// Ten in the morning, where each run ends, in seconds after midnight.
pub(super) const END: i64 = 36_000;

/// A crontab, and how many seconds after midnight each of its entries fires on that day, with what
/// is written then.
#[derive(Clone, Copy, Debug)]
pub(super) struct Tab {
    pub(super) text: &'static str,
    pub(super) fires: &'static [(i64, &'static str)],
}

pub(super) const DAY: Tab = Tab {
    text: "30 0 * * * a\n0 1 * * * b\n0 1 * * * c\n30 1 * * * d\n0 2 * * * e\n",
    fires: &[
        (1800, "a\n"),
        (3600, "b\n"),
        (3600, "c\n"),
        (5400, "d\n"),
        (7200, "e\n"),
    ],
};

/// A crontab that has no fire on any day.
pub(super) const NEVER: Tab = Tab {
    text: "0 0 30 2 * f\n",
    fires: &[],
};

/// What is written at the fires after a second of the day, up to and with another.
pub(super) fn texts(rt: &(impl Abort + AllocGlobal), tab: &Tab, after: i64, until: i64) -> String {
    let mut all = String::new(rt.alloc());
    for (second, text) in tab.fires {
        if after < *second && *second <= until {
            all.push_str(text).expect(rt, "memory");
        }
    }
    all
}

/// The text of the note that all entries of a crontab were run up to a second of the day.
pub(super) fn note_of(rt: &(impl Abort + AllocGlobal), tab: &Tab, second: i64) -> String {
    let until = MIDNIGHT.saturating_add(second);
    let mut note = format!(in rt.alloc(); "crontool state 1\n{until}\n").expect(rt, "memory");
    for line in tab.text.lines() {
        for text in ["\t", line, "\n"] {
            note.push_str(text).expect(rt, "memory");
        }
    }
    note.push_str(".\n").expect(rt, "memory");
    note
}
