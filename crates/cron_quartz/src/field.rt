//! The seven fields of Quartz's expressions.

ghost use Rattle.std.specs.Prelude.{◌≡◌};
ghost use Rattle.cron_quartz.specs.Fields.{unit_of};

/// A field of an expression.
#[derive(Clone, Copy, Debug, PartialEq, Eq)]
pub enum Field {
    Second,
    Minute,
    Hour,
    DayOfMonth,
    Month,
    DayOfWeek,
    Year,
}

impl Field {
    /// The field's name in messages.
    pub fn title(self) -> &'static str
        ensures { result.now ≡ (unit_of self).title }
    {
        match self {
            Field::Second => "Seconds",
            Field::Minute => "Minutes",
            Field::Hour => "Hours",
            Field::DayOfMonth => "Days of Month",
            Field::Month => "Months",
            Field::DayOfWeek => "Days of Week",
            Field::Year => "Years",
        }
    }
}
