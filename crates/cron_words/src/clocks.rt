//! Times of day by the clock.

ghost use Rattle.std.specs.Prelude.{◌≡◌, ◌++◌, OnOk};
ghost use Rattle.std.specs.String.{string_bytes};
ghost use Rattle.cron_words.specs.Clocks.{clock_text, two_digits};

use cron_units::time_unit::Ordinal;
use std::alloc::AllocError;

fn push_two_digits(text: &mut String, number: Ordinal) -> Result<(), AllocError>
    ensures { OnOk result (string_bytes text.new ≡ string_bytes text.old ++ two_digits number) }
{
    if number < 10 {
        write!(text, "0{number}")
    } else {
        write!(text, "{number}")
    }
}

/// Appends a time of day. The second is left out if it is 0.
pub(crate) fn push_clock(
    text: &mut String,
    hour: Ordinal,
    minute: Ordinal,
    second: Ordinal,
) -> Result<(), AllocError>
    ensures { OnOk result
        (string_bytes text.new ≡ string_bytes text.old ++ clock_text hour minute second) }
{
    push_two_digits(text, hour)?;
    text.push_str(":")?;
    push_two_digits(text, minute)?;
    if second == 0 {
        return Ok(());
    }
    text.push_str(":")?;
    push_two_digits(text, second)
}
