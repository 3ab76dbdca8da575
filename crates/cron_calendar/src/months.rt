//! The places of a month's days in its grid, and their numbers of fires. A grid has a row of seven
//! places for each week, from Monday on, and places are counted from 0.
ghost use Rattle.std.specs.Prelude.{◌≡◌, ◌<◌, ◌≤◌, IfSome};
ghost use Rattle.cron_moments.specs.Calendar.{first_month, length_of, months_end};
ghost use Rattle.cron_moments.specs.Calendar as calendar;
ghost use Rattle.cron_calendar.specs.Grids.{count_at, count_of, day_at, lead};

use cron_moments::calendar::{KnownMonth, length_of};

/// The numbers of fires of consecutive days, and how they are shown.
#[derive(Clone, Copy)]
pub struct Months<'a> {
    /// The number of the first day, counted from 1970-01-01.
    pub first_day: u32,
    /// The numbers of fires of the first day and of the days after it.
    pub counts: &'a [u32],
    /// Whether the numbers of fires are green, by the codes of a terminal.
    pub colour: bool,
}

// The number of days of the month's first week that precede the month. Weeks begin with Monday.
fn lead_of(month: u32) -> u32
    requires { (first_month ≤ month) × (month < months_end) }
    ensures lead { result ≡ lead month }
    ensures few { result < 7 }
{
    (KnownMonth::of_number(month).first_day() + 3) % 7
}

/// The day of `month`, 1 to 31, at `place` of its grid, which has seven places a week from Monday
/// on. `None` if no day is there.
pub fn day_at(month: u32, place: u32) -> Option<u32>
    requires { (first_month ≤ month) × (month < months_end) }
    ensures day { result ≡ day_at month place }
    ensures within { IfSome result (λ day. (1 ≤ day) × (day ≤ 31)) }
    ensures fits { IfSome result (λ day. day ≤ length_of month) }
{
    let lead = lead_of(month);
    if place < lead {
        return None;
    }
    if place - lead < length_of(month) {
        Some(place - lead + 1)
    } else {
        None
    }
}

// The number of fires of `day` of `month`: 0 after the last counted day. A day before `first_day`
// gets the number of `first_day`.
fn count_of(months: &Months<'_>, month: u32, day: u32) -> u32
    requires month { (first_month ≤ month) × (month < months_end) }
    requires day { (1 ≤ day) × (day ≤ 31) }
    ensures { result ≡ count_of months.now month day }
{
    let number = KnownMonth::of_number(month).first_day() + day - 1;
    let place = number.saturating_sub(months.first_day) as usize;
    match months.counts.get(place) {
        Some(count) => *count,
        None => 0,
    }
}

/// The number of fires of the day of `month` at `place` of its grid. `None` if no day is there.
pub(crate) fn count_at(months: &Months<'_>, month: u32, place: u32) -> Option<u32>
    requires { (first_month ≤ month) × (month < months_end) }
    ensures { result ≡ count_at months.now month place }
{
    match day_at(month, place) {
        Some(day) => Some(count_of(months, month, day)),
        None => None,
    }
}
