//! The zones of calendars: what `OnCalendar` takes of those that a crontab names.

ghost use Rattle.std.specs.Prelude.{◌≡◌, true, Ok, Err, MatchResult};
ghost use Rattle.std.specs.List.{list_all};
ghost use Rattle.std.specs.Option.{ForSome, option_map};
ghost use Rattle.cron_oncalendar.specs.Zones.{is_word};
ghost use Rattle.cron_tab_systemd.specs.Zones.{IsWordOf, IsZoneOf, is_utc, is_zone_byte, unsaid_zone, word_of};

use crate::made::Unsaid;
use cron_zones::source::{Source, source_of};

fn is_zone_byte(byte: u8) -> bool
    ensures { result ≡ is_zone_byte byte }
{
    byte.is_ascii_alphanumeric() || byte == b'+' || byte == b'-' || byte == b'/' || byte == b'_'
}

fn are_zone_bytes(name: &str) -> bool
    ensures { result ≡ list_all is_zone_byte name.now }
{
    name.as_bytes().iter().all(|byte| is_zone_byte(*byte))
}

fn is_utc(text: &str) -> bool
    ensures { result ≡ is_utc text.now }
{
    text == "UTC" || text == ":UTC"
}

// The word for a source that was read from `text`.
fn word_of<'a>(text: &str, source: Option<Source<'a>>) -> Option<&'a str>
    ensures word { option_map (λ word. word.now) result ≡ word_of text.now source.entry }
    ensures one { ForSome result (λ word. is_word word.now ≡ true) }
{
    match source {
        Some(Source::Named(name)) if are_zone_bytes(name) => Some(name),
        Some(Source::Stated(_)) if is_utc(text) => Some("UTC"),
        _ => None,
    }
}

/// The word by which `OnCalendar` knows the zone that a text names: `UTC`, or a name of letters,
/// digits and `+-/_`. `None` for a rule, for a path and for another name.
pub fn zone_word(text: &str) -> Option<&str>
    ensures word { IsWordOf text.now (option_map (λ word. word.now) result) }
    ensures one { ForSome result (λ word. is_word word.now ≡ true) }
{
    let source = source_of("local", Some(text));
    word_of(text, source)
}

/// The zone of an entry below a `CRON_TZ` with this value, for `OnCalendar`. An empty value means
/// `asked`, and `None` the zone of the machine.
pub(crate) fn zone_of<'a>(
    asked: Option<&'a str>,
    value: &'a [u8],
) -> Result<Option<&'a str>, Unsaid>
    requires { ForSome asked (λ word. is_word word.now ≡ true) }
    ensures zone { MatchResult result
        (λ zone. IsZoneOf (option_map (λ word. word.now) asked.entry) value.now
        (Ok (option_map (λ word. word.now) zone)))
        (λ why. IsZoneOf (option_map (λ word. word.now) asked.entry) value.now (Err why)) }
    ensures one { MatchResult result
        (λ zone. ForSome zone (λ word. is_word word.now ≡ true)) (λ why. why ≡ unsaid_zone) }
{
    if value.is_empty() {
        return Ok(asked);
    }
    let Ok(text) = str::from_utf8(value) else {
        return Err(Unsaid::Zone);
    };
    match zone_word(text) {
        Some(word) => Ok(Some(word)),
        None => Err(Unsaid::Zone),
    }
}
