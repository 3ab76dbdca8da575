//! Several rules of one kind at once.

use crate::both::shared;
use crate::days::Days;
use crate::row::Row;
use cron_moments::civil::DAYS;

/// All of several rules: it allows the days that each of them allows. Without a rule it allows each
/// day.
#[derive(Clone, Copy)]
pub struct All<'a, D> {
    /// The rules, in any order.
    pub rules: &'a [D],
}

impl<'a, D: Days> Days for All<'a, D> {
    ghost use Rattle.std.specs.List.{list_all};

    ghost allows = { λ all n. list_all (λ rule. D.allows rule n) all.rules.now };

    fn row_of(&self, day: u32) -> Row {
        let mut row = Row {
            first: 0,
            last: DAYS - 1,
            allowed: true,
        };
        for rule in self.rules {
            row = shared(row, rule.row_of(day));
        }
        row
    }
}
