//! Two rules of any kinds at once.
ghost use Rattle.std.specs.Prelude.{◌≡◌, ◌&&◌, ◌<◌, ℕ, Bool};
ghost use Rattle.cron_days.specs.Days.{IsRow};

use crate::days::Days;
use crate::row::Row;

/// Both of two rules: it allows the days that each of them allows.
#[derive(Clone, Copy, Drop)]
pub struct Both<D, E> {
    /// A rule.
    pub one: D,
    /// Another rule.
    pub other: E,
}

// Days that two rules treat alike, from a row of each: those of a row that one of them doesn't
// allow, or else those of both rows.
pub(crate) fn shared(row: Row, other: Row) -> Row
    ensures { (day : ℕ) (d e : ℕ → Bool) → IsRow d day row → IsRow e day other
        → IsRow (λ n. d n && e n) day result }
{
    if !row.allowed {
        return row;
    }
    if !other.allowed {
        return other;
    }
    Row {
        first: row.first.max(other.first),
        last: row.last.min(other.last),
        allowed: true,
    }
}

impl<D: Days, E: Days> Days for Both<D, E> {
    ghost use Rattle.std.specs.Prelude.{◌&&◌};

    ghost allows = { λ both n. D.allows both.one n && E.allows both.other n };

    fn row_of(&self, day: u32) -> Row {
        shared(self.one.row_of(day), self.other.row_of(day))
    }
}
