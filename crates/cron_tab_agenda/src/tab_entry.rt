//! The civil seconds of a crontab entry, which its schedules match.

ghost use Rattle.std.specs.Prelude.{◌≡◌, None, MatchOption};
ghost use Rattle.cron_tab_lines.specs.Views.{file_line_view};
ghost use Rattle.cron_tab_agenda.specs.Tabs.{IsTab, schedules_in, schedules_of};

use cron_crontab::{Expression, Schedules};
use cron_fires::{CivilSeconds, Union};
use cron_tab_lines::{FileLine, Line};
use cron_unions::UnionCursor;
use cron_units::way::Way;

/// The civil seconds of a crontab entry: one schedule or two, and the number of its line.
#[derive(Clone, Copy)]
pub struct TabEntry {
    line: usize,
    schedules: Schedules,
}

impl TabEntry {
    /// The civil seconds of the entry in `line`. `None` if the line is no entry, or one that no
    /// clock fires: `@reboot`.
    pub fn of(line: &FileLine<'_>) -> Option<TabEntry>
        ensures { MatchOption result (schedules_in (file_line_view line.now).outcome ≡ None)
            (IsTab (file_line_view line.now)) }
    {
        let Ok(Line::Entry(entry)) = &line.read else {
            return None;
        };
        let Expression::Fires(schedules) = &entry.expression else {
            return None;
        };
        Some(TabEntry {
            line: line.number,
            schedules: *schedules,
        })
    }

    /// The number of the entry's line, from 1 on.
    pub fn line(&self) -> usize
        ensures { result ≡ self.now.line }
    {
        self.line
    }

    // The entry's schedules as one set of civil seconds.
    #[inline(always)]
    pub(crate) fn union(&self) -> Union<'_>
        ensures { result.schedules.now ≡ schedules_of self.now }
    {
        Union {
            schedules: self.schedules.as_slice(),
        }
    }
}

/// An entry fires when any of its schedules does.
impl CivilSeconds for TabEntry {
    ghost use Rattle.cron_unions.specs.Inner.Cursor.{Knows};
    ghost use Rattle.cron_tab_agenda.specs.Tabs.{schedules_of, set_of};

    ghost has = { set_of };

    type Cursor = UnionCursor;

    ghost knows = { λ entry cursor. Knows (schedules_of entry) cursor };

    #[inline(always)]
    fn nearest(&self, way: Way, from: i64) -> Option<u32> {
        self.union().nearest(way, from)
    }

    #[inline(always)]
    fn begin() -> UnionCursor {
        Union::begin()
    }

    #[inline(always)]
    fn past(&self, way: Way, second: u32, cursor: &mut UnionCursor) -> Option<u32> {
        self.union().past(way, second, cursor)
    }

    #[inline(always)]
    fn is_clear(&self, first: u32, end: u32) -> bool {
        self.union().is_clear(first, end)
    }
}
