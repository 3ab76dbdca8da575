//! What rows tell of some stretches: how many there are, the first and the last, and a sum.

use anyhow::Result;
use cron_stretches::stretch::Stretch;
use cron_test_rows::Row;

/// How many stretches there were, the first and the last, and the sum of what tells them apart.
#[derive(Drop)]
pub(crate) struct Spans {
    start: i64,
    count: i64,
    sum: i64,
    first: Option<Stretch<i64>>,
    last: Option<Stretch<i64>>,
}

impl Spans {
    /// No stretches, in a span from `start` on.
    pub(crate) fn from(start: i64) -> Spans {
        Spans {
            start,
            count: 0,
            sum: 0,
            first: None,
            last: None,
        }
    }

    /// Adds a stretch.
    pub(crate) fn add(&mut self, first: i64, end: i64, value: i64) {
        let stretch = Stretch { first, end, value };
        self.count = self.count.wrapping_add(1);
        let apart = first
            .wrapping_sub(self.start)
            .wrapping_add(end.wrapping_sub(self.start).wrapping_mul(3))
            .wrapping_add(value.wrapping_mul(7));
        let here = (self.count % 1000).wrapping_mul(apart);
        self.sum = self.sum.wrapping_add(here);
        if self.first.is_none() {
            self.first = Some(stretch);
        }
        self.last = Some(stretch);
    }

    /// Adds the cells to a row's answer.
    pub(crate) fn tell(&self, row: &mut Row<'_>) -> Result<()> {
        row.add("\t", &self.count)?;
        tell_one(row, &self.first)?;
        tell_one(row, &self.last)?;
        row.add("\t", &(self.sum % 4_294_967_296))?;
        Ok(())
    }
}

// Adds the cell of a stretch.
fn tell_one(row: &mut Row<'_>, stretch: &Option<Stretch<i64>>) -> Result<()> {
    match stretch {
        Some(it) => {
            row.add("\t", &it.first)?;
            row.add(" ", &it.end)?;
            row.add(" ", &it.value)?;
        }
        None => row.add("\t", &"none")?,
    }
    Ok(())
}
