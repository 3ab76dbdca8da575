//! The opposite of a rule.

use crate::days::Days;
use crate::row::Row;

/// The opposite of a rule: it allows the days of the range that `rule` doesn't.
#[derive(Clone, Copy, Drop)]
pub struct Opposite<D> {
    /// The rule.
    pub rule: D,
}

impl<D: Days> Days for Opposite<D> {
    ghost use Rattle.std.specs.Prelude.{not};

    ghost allows = { λ opposite n. not (D.allows opposite.rule n) };

    fn row_of(&self, day: u32) -> Row {
        let row = self.rule.row_of(day);
        Row {
            first: row.first,
            last: row.last,
            allowed: !row.allowed,
        }
    }
}
