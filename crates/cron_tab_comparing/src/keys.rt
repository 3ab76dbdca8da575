//! How the entries of two crontabs correspond: both run the same, and the same number of such
//! entries precede them.
ghost use Rattle.std.specs.Prelude.{◌≡◌, map};
ghost use Rattle.std.specs.List.{count_by};
ghost use Rattle.cron_tab_lines.specs.Views.{bytes_view};
ghost use Rattle.cron_tab_comparing.specs.Entries.{other_view, view};
ghost use Rattle.cron_tab_comparing.specs.Keys.{are_alike, are_one_kind, other_of, same};

use crate::entries::Known;
use cron_units::fields::ScheduleFields;

// Returns true if both are the same bytes, or both are `None`.
fn are_alike(first: Option<&[u8]>, second: Option<&[u8]>) -> bool
    ensures { result ≡ are_alike (bytes_view first.entry) (bytes_view second.entry) }
{
    match (first, second) {
        (Some(first), Some(second)) => first == second,
        (None, None) => true,
        _ => false,
    }
}

// Returns true if a clock fires both entries, or neither of them. An entry without schedules is
// `@reboot`.
fn are_one_kind(first: &[ScheduleFields], second: &[ScheduleFields]) -> bool
    ensures { result ≡ are_one_kind first.now second.now }
{
    first.is_empty() == second.is_empty()
}

/// Returns true if two entries run the same: command, user, input and zone are equal, and a clock
/// fires both or neither.
pub(crate) fn same(first: &Known<'_>, second: &Known<'_>) -> bool
    ensures { result ≡ same (view first.now) (view second.now) }
{
    first.command == second.command
        && are_alike(first.user, second.user)
        && are_alike(first.input, second.input)
        && first.zone == second.zone
        && are_one_kind(first.schedules.as_slice(), second.schedules.as_slice())
}

// The number of `entries` that run the same as `one`.
fn count_same(one: &Known<'_>, entries: &[Known<'_>]) -> usize
    ensures { result ≡ count_by (same (view one.now)) (map view entries.now) }
{
    let mut count = 0;
    for entry in entries {
        if same(one, entry) {
            count += 1;
        }
    }
    count
}

/// The entry of the other crontab that corresponds to `one`. The entries `before` precede `one` in
/// its crontab. If `n` of these run the same as `one`, the result is entry `n`, counted from 0, of
/// the `others` that run the same as `one`. `None` if there is none.
pub(crate) fn other_of<'a, 'b>(
    others: &'a [Known<'b>],
    before: &[Known<'_>],
    one: &Known<'_>,
) -> Option<&'a Known<'b>>
    ensures { other_view result
        ≡ other_of (map view others.now) (map view before.now) (view one.now) }
{
    let mut left = count_same(one, before);
    for other in others {
        if same(one, other) {
            if left == 0 {
                return Some(other);
            }
            left -= 1;
        }
    }
    None
}
