//! The five fields of a crontab's expression: their titles, their numbers and names.

ghost use Rattle.std.specs.Prelude.{◌≡◌};
ghost use Rattle.std.specs.Str.{str_eq_ignore_ascii_case};
ghost use Rattle.cron_units.specs.Tables.{ordinals_view};
ghost use Rattle.cron_units.specs.Units.{named_in};
ghost use Rattle.cron_crontab.specs.Fields.{title, least, greatest, names};

/// A field of a crontab's expression.
#[derive(Clone, Copy, Debug, PartialEq, Eq)]
pub enum Field {
    Minute,
    Hour,
    DayOfMonth,
    Month,
    DayOfWeek,
}

const MONTH_NAMES: [(&str, u32); 12] = [
    ("jan", 1),
    ("feb", 2),
    ("mar", 3),
    ("apr", 4),
    ("may", 5),
    ("jun", 6),
    ("jul", 7),
    ("aug", 8),
    ("sep", 9),
    ("oct", 10),
    ("nov", 11),
    ("dec", 12),
];

const DAY_NAMES: [(&str, u32); 7] = [
    ("sun", 0),
    ("mon", 1),
    ("tue", 2),
    ("wed", 3),
    ("thu", 4),
    ("fri", 5),
    ("sat", 6),
];

/// Returns true if `name` and `other` are the same but for the case of their letters.
#[inline(always)]
pub(crate) fn is_same_name(name: &str, other: &str) -> bool
    ensures { result ≡ str_eq_ignore_ascii_case name.now other.now }
{
    let (name, other) = (name.as_bytes(), other.as_bytes());
    if name.len() != other.len() {
        return false;
    }
    for at in 0..name.len() {
        if !name[at].eq_ignore_ascii_case(&other[at]) {
            return false;
        }
    }
    true
}

/// The number of the name `sought`, in any case of its letters. `None` if it isn't in `names`.
#[inline(always)]
fn number_named(names: &[(&str, u32)], sought: &str) -> Option<u32>
    ensures { result ≡ named_in (ordinals_view names.now) sought.now }
{
    for (name, number) in names {
        if is_same_name(name, sought) {
            return Some(*number);
        }
    }
    None
}

impl Field {
    /// The field's name in messages.
    pub fn title(self) -> &'static str
        ensures { result.now ≡ title self }
    {
        match self {
            Field::Minute => "minute",
            Field::Hour => "hour",
            Field::DayOfMonth => "day of month",
            Field::Month => "month",
            Field::DayOfWeek => "day of week",
        }
    }

    /// The least number of the field.
    pub fn least(self) -> u32
        ensures { result ≡ least self }
    {
        match self {
            Field::Minute | Field::Hour | Field::DayOfWeek => 0,
            Field::DayOfMonth | Field::Month => 1,
        }
    }

    /// The greatest number of the field.
    pub fn greatest(self) -> u32
        ensures { result ≡ greatest self }
    {
        match self {
            Field::Minute => 59,
            Field::Hour => 23,
            Field::DayOfMonth => 31,
            Field::Month => 12,
            Field::DayOfWeek => 7,
        }
    }

    /// The number of the month or day whose name of three letters is `name`. `None` if the field
    /// has no such name.
    pub(crate) fn number_named(self, name: &str) -> Option<u32>
        ensures { result ≡ named_in (names self) name.now }
    {
        match self {
            Field::Month => number_named(&MONTH_NAMES, name),
            Field::DayOfWeek => number_named(&DAY_NAMES, name),
            Field::Minute | Field::Hour | Field::DayOfMonth => None,
        }
    }
}
