//! The row of a window, its text or an object of JSON.

ghost use Rattle.std.specs.Prelude.{◌≡◌, ◌-ℤ◌};
ghost use Rattle.jiff.specs.Words.{plain_zone};
ghost use Rattle.cron_stretches.specs.Fires.{IsInstant};
ghost use Rattle.cron_window_answers.specs.Rows.{json_row, row, text_row};

use crate::text::{Line, push_bytes, push_instant, push_number};
use cron_replies::form::Form;
use cron_stretches::stretch::Stretch;
use jiff::tz::TimeZone;

fn text_row(zone: &TimeZone<'_>, window: &Stretch<bool>) -> Line
    requires { IsInstant window.now.first × IsInstant window.now.end }
    ensures { result.items ≡ text_row (plain_zone zone.now) window.now }
{
    let mut row = Line::new();
    push_instant(&mut row, window.first, zone);
    push_bytes(&mut row, b"\t");
    push_instant(&mut row, window.end, zone);
    push_bytes(&mut row, b"\n");
    row
}

// How many seconds a window has.
fn length_of(window: &Stretch<bool>) -> i64
    requires { IsInstant window.now.first × IsInstant window.now.end }
    ensures { result ≡ window.now.end -ℤ window.now.first }
{
    window.end - window.first
}

fn json_row(zone: &TimeZone<'_>, window: &Stretch<bool>) -> Line
    requires { IsInstant window.now.first × IsInstant window.now.end }
    ensures { result.items ≡ json_row (plain_zone zone.now) window.now }
{
    let mut object = Line::new();
    push_bytes(&mut object, b"{\"opens\":\"");
    push_instant(&mut object, window.first, zone);
    push_bytes(&mut object, b"\",\"closes\":\"");
    push_instant(&mut object, window.end, zone);
    push_bytes(&mut object, b"\",\"seconds\":");
    push_number(&mut object, length_of(window));
    push_bytes(&mut object, b"}\n");
    object
}

/// The row of a window in the form `form`, with its line feed.
pub(crate) fn row_of(form: Form, zone: &TimeZone<'_>, window: &Stretch<bool>) -> Line
    requires { IsInstant window.now.first × IsInstant window.now.end }
    ensures { result.items ≡ row form (plain_zone zone.now) window.now }
{
    match form {
        Form::Text => text_row(zone, window),
        Form::Json => json_row(zone, window),
    }
}
