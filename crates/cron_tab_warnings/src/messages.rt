//! The messages of warnings.

ghost use Rattle.std.specs.Prelude.{◌≡◌};
ghost use Rattle.cron_tab_warnings.specs.Messages.{line_warning_text, round_text};

use crate::files::LineWarning;
use crate::warnings::Warning;
use cron_crontab::Field;
use std::fmt;

fn round_text(field: Field) -> &'static str
    ensures { result.now ≡ round_text field }
{
    match field {
        Field::Minute => "each hour",
        Field::Hour => "each day",
        Field::DayOfMonth => "each month",
        Field::Month => "each year",
        Field::DayOfWeek => "each week",
    }
}

fn line_warning_text(warning: LineWarning) -> &'static str
    ensures { result.now ≡ line_warning_text warning }
{
    match warning {
        LineWarning::IgnoredZone => "Debian's cron ignores CRON_TZ",
        LineWarning::LongCommand => "Debian's cron refuses a command of 999 bytes or more",
        LineWarning::ReturnAtEnd => {
            "a carriage return stays at the end of the command or of its input"
        }
        LineWarning::TwoBackslashes => "of two backslashes in a command Debian's cron leaves one",
        LineWarning::DashInFront => "cronie takes a - in front of a command as an option",
        LineWarning::PercentSign => {
            "an unescaped % ends the command, and the rest is its input: write \\% for a percent sign"
        }
        LineWarning::ShortenedValue => {
            "Debian's cron takes white space or a second pair of quotation marks from the value"
        }
        LineWarning::LongSetting => "Debian's cron cuts a setting off after 998 bytes",
        LineWarning::ManyLines => "Debian's cron refuses a file of more than 10000 lines",
        LineWarning::NoLineFeed => {
            "no line feed ends the last line: Debian's cron refuses the file, and cronie the line"
        }
    }
}

impl fmt::Display for LineWarning {
    ghost use Rattle.std.specs.Prelude.{Some};
    ghost use Rattle.cron_tab_warnings.specs.Messages.{line_warning_text};

    ghost output = { λ w. Some (line_warning_text w) };

    fn fmt<W: fmt::Write>(&self, f: &mut fmt::Formatter<W>) -> fmt::Result {
        f.write_str(line_warning_text(*self))
    }
}

impl fmt::Display for Warning {
    ghost use Rattle.std.specs.Prelude.{Some};
    ghost use Rattle.cron_tab_warnings.specs.Messages.{warning_text};

    ghost output = { λ w. Some (warning_text w) };

    fn fmt<W: fmt::Write>(&self, f: &mut fmt::Formatter<W>) -> fmt::Result {
        match self {
            Warning::NeverFires => f.write_str("it never fires"),
            Warning::Backward(field) => {
                let title = field.title();
                write!(
                    f,
                    "{title}: a range that goes from a greater number to a lesser one has none"
                )
            }
            Warning::StepPastEnd(field) => {
                let title = field.title();
                write!(
                    f,
                    "{title}: a step past the end of its range leaves the first number alone"
                )
            }
            Warning::UnevenStep(field) => {
                let (title, round) = (field.title(), round_text(*field));
                write!(
                    f,
                    "{title}: the step doesn't divide the field, so it begins anew {round}"
                )
            }
            Warning::StarStep(field) => {
                let title = field.title();
                write!(
                    f,
                    "{title}: it begins with a star, so both kinds of day must match"
                )
            }
            Warning::LeftOutDays => {
                f.write_str("day of month: months that lack a day are passed over")
            }
            Warning::EitherDays => f.write_str(
                "day of month and day of week: a match of one suffices, so test one in the command if both must match",
            ),
            Warning::EachMinute => f.write_str(
                "minute: a star is all 60 minutes of each hour that is named, where a number is one",
            ),
            Warning::SixFields => f.write_str(
                "the command begins with a sixth field: an expression has five, none of seconds",
            ),
            Warning::SevenFields => f.write_str(
                "the command begins with a sixth and a seventh field: an expression has five, none of seconds and none of years",
            ),
        }
    }
}
