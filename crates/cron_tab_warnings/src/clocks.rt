//! Entries at a fixed time, and entries that follow the clock.

ghost use Rattle.std.specs.Prelude.{◌≡◌};
ghost use Rattle.cron_tab_warnings.specs.Clocks.{follows_clock};

use crate::words::word_at;
use cron_crontab::{begins_with_at, begins_with_star};

/// Returns true if an entry follows the clock, by its line or its expression. When the clock goes
/// back such an entry runs again, and when the clock goes ahead it leaves out the skipped times.
/// Its minute or its hour begins with `*`, or it is `@hourly`. Every other entry has a fixed time
/// and runs once for it.
///
/// `*/10 2 * * *` follows the clock, `0,10 2 * * *` doesn't.
pub fn follows_clock(text: &str) -> bool
    ensures { result ≡ follows_clock text.now }
{
    let first = word_at(text, 0);
    if begins_with_at(first) {
        return first == "@hourly";
    }
    begins_with_star(first) || begins_with_star(word_at(text, 1))
}
