//! The options of a plan.
ghost use Rattle.std.specs.Prelude.{◌≡◌};
ghost use Rattle.cron_plan_words.specs.Options.{has_none};

use cron_days::period::Period;
use cron_units::way::Way;
use jiff::civil::Date;

/// One day, week or month in `count`, the one that `anchor` lies in among them.
#[derive(Clone, Copy)]
pub struct Step {
    /// The number. A rule takes one from 1 to 10,000.
    pub count: u32,
    /// Whether days, weeks or months are counted.
    pub period: Period,
    /// A date in one of them.
    pub anchor: Date,
}

/// The options of a plan, as they were read.
#[derive(Clone, Copy)]
pub struct Options<'a> {
    /// `--every` and `--anchor`.
    pub every: Option<Step>,
    /// `--first`: the first day.
    pub first: Option<Date>,
    /// `--last`: the last day.
    pub last: Option<Date>,
    /// The dates of `--holidays`, which are left out.
    pub holidays: Option<&'a [Date]>,
    /// `--move`: where a fire on a day that is left out goes, to an allowed day after or before it.
    pub moves: Option<Way>,
    /// Whether there is `--except`.
    pub except: bool,
}

impl<'a> Options<'a> {
    /// Whether none of the options is there, so that there is no plan.
    pub fn is_empty(&self) -> bool
        ensures { result ≡ has_none self.now }
    {
        self.every.is_none()
            && self.first.is_none()
            && self.last.is_none()
            && self.holidays.is_none()
            && self.moves.is_none()
            && !self.except
    }
}
