//! The months that the argument PERIOD of `calendar` names.

ghost use Rattle.std.specs.Prelude.{◌≡◌, ◌≤◌, ◌+◌, ◌*◌, ℕ, IfSome, MatchOption, Some, length};
ghost use Rattle.cron_answers.specs.Periods.{IsPeriod, Names, NamesMonth};
ghost use Rattle.cron_answers.specs.Inner.Digits.{IsDigit, IsNoDigit, IsYearAt, Spells};

/// The months of a year, or one of them. Months are numbered from January of the year 0.
#[derive(Clone, Copy, Debug, PartialEq, Eq)]
pub struct Period {
    /// The year, from 1970 to 2100.
    pub year: u32,
    /// The number of the first month.
    pub first: u32,
    /// The number of the month after the last one.
    pub end: u32,
}

// The number that a digit spells, or `None` if `byte` is no digit.
fn digit_of(byte: u8) -> Option<u32>
    ensures { MatchOption result (IsNoDigit byte) (IsDigit byte) }
{
    if byte < b'0' {
        return None;
    }
    if byte > b'9' {
        return None;
    }
    Some(u32::from(byte - b'0'))
}

/// The number that the two digits at index `at` spell. `None` if they aren't both digits.
pub(crate) fn two_at(text: &[u8], at: usize) -> Option<u32>
    requires { at + 2 ≤ length text.now }
    ensures digits { IfSome result (Spells text.now at) }
    ensures only { (n : ℕ) → Spells text.now at n → result ≡ Some n }
{
    let tens = digit_of(text[at])?;
    let ones = digit_of(text[at + 1])?;
    Some(tens * 10 + ones)
}

// The year from 1970 to 2100 that the first four digits spell. `None` if they spell no such year.
fn year_at(text: &[u8]) -> Option<u32>
    requires { 4 ≤ length text.now }
    ensures digits { IfSome result (IsYearAt text.now) }
    ensures only { (n : ℕ) → IsYearAt text.now n → result ≡ Some n }
{
    let year = two_at(text, 0)? * 100 + two_at(text, 2)?;
    if year < 1970 || year > 2100 {
        return None;
    }
    Some(year)
}

/// The month that a text names, such as `2024-03`. `None` if it names none.
pub(crate) fn month_of(text: &[u8]) -> Option<Period>
    requires { length text.now ≡ 7 }
    ensures names { IfSome result (NamesMonth text.now) }
    ensures only { (p : Period) → NamesMonth text.now p → result ≡ Some p }
{
    let year = year_at(text)?;
    let month = two_at(text, 5)?;
    if text[4] != b'-' || month < 1 || month > 12 {
        return None;
    }
    Some(Period {
        year,
        first: year * 12 + month - 1,
        end: year * 12 + month,
    })
}

/// Reads a year from 1970 to 2100, such as `2024`, or a month of one, such as `2024-03`. `None` for
/// any other text.
pub fn period_of(text: &str) -> Option<Period>
    ensures names { IfSome result (Names text.now) }
    ensures only { (p : Period) → Names text.now p → result ≡ Some p }
    ensures range { IfSome result IsPeriod }
{
    let text = text.as_bytes();
    match text.len() {
        4 => {
            let year = year_at(text)?;
            Some(Period {
                year,
                first: year * 12,
                end: year * 12 + 12,
            })
        }
        7 => month_of(text),
        _ => None,
    }
}
