//! Lines of iCalendar files, unfolded.
ghost use Rattle.std.specs.Prelude.{◌≡◌, ◌≤◌, ◌++◌, drop, length, map, IfOk};
ghost use Rattle.std.specs.List.{prefix_len};
ghost use Rattle.cron_holidays.specs.Contents.{continues};
ghost use Rattle.cron_holidays.specs.Inner.Joined.{more_text};
ghost use Rattle.cron_holidays.specs.Views.{line_view};

use crate::lines::{Line, is_blank};
use std::alloc::{AllocError, Global};

/// Returns true if a line continues the one before it.
fn continues(line: &Line<'_>) -> bool
    ensures { result ≡ continues (line_view line.now) }
{
    match line.text.first() {
        Some(byte) => is_blank(*byte),
        None => false,
    }
}

/// The number of lines at the front of `lines` that continue the ones before them.
pub(crate) fn more_len(lines: &[Line<'_>]) -> usize
    ensures is { result ≡ prefix_len continues (map line_view lines.now) }
    ensures within { result ≤ length lines.now }
{
    for (at, line) in lines.iter().enumerate() {
        if !continues(line) {
            return at;
        }
    }
    lines.len()
}

fn without_first(text: &[u8]) -> &[u8]
    ensures { result.now ≡ drop 1 text.now }
{
    match text.split_first() {
        Some((_, rest)) => rest,
        None => text,
    }
}

/// The text of a line with those of the lines that continue it.
pub(crate) fn whole_text(
    alloc: Global,
    first: &[u8],
    more: &[Line<'_>],
) -> Result<Vec<u8>, AllocError>
    ensures { IfOk result (λ text. text.items
        ≡ first.now ++ more_text (map line_view more.now)) }
{
    let mut text = Vec::from_slice(alloc, first)?;
    for line in more {
        text.extend_from_slice(without_first(line.text))?;
    }
    Ok(text)
}
