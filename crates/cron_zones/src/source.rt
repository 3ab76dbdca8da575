//! What a text names: a zone that needs no file, or the zone file.

ghost use Rattle.std.specs.Prelude.{◌≡◌, option_map};
ghost use Rattle.cron_zones.specs.Sources.{begins_with, IsBehindColon, IsLocal, IsSource, IsStated, IsTold, IsVariable};

use crate::names::is_zone_name;
use cron_moments::zone::zone_of;
use jiff::tz::TimeZone;

/// Where a zone is found.
#[derive(Clone, Copy)]
pub enum Source<'a> {
    /// UTC, or the zone of a rule text.
    Stated(TimeZone<'a>),
    /// The file with this name in the folder of zone files.
    Named(&'a str),
    /// The file at this path.
    At(&'a str),
    /// The machine's own zone file, or UTC if there is none.
    Machine,
}

// What a text names without TZ: `UTC`, a rule text, or a name. `None` if it is none of these.
fn stated_source(text: &str) -> Option<Source<'_>>
    ensures { IsStated text.now result }
{
    if let Some(zone) = zone_of(text) {
        return Some(Source::Stated(zone));
    }
    if !is_zone_name(text) {
        return None;
    }
    Some(Source::Named(text))
}

fn begins_with(byte: u8, text: &str) -> bool
    ensures { result ≡ begins_with byte text.now }
{
    match text.as_bytes() {
        [first, ..] => *first == byte,
        [] => false,
    }
}

// What TZ names without a colon. An empty text is UTC. `None` if it is no rule text and no name.
fn told_source(text: &str) -> Option<Source<'_>>
    ensures { IsTold text.now result }
{
    if text.is_empty() {
        return Some(Source::Stated(TimeZone::UTC));
    }
    stated_source(text)
}

// What TZ names if it begins with a colon; `text` is the rest. `None` if it names nothing.
fn behind_colon(text: &str) -> Option<Source<'_>>
    ensures { IsBehindColon text.now result }
{
    if begins_with(b'/', text) {
        return Some(Source::At(text));
    }
    told_source(text)
}

// What TZ names, with or without a colon. `None` if it names nothing.
fn variable_source(text: &str) -> Option<Source<'_>>
    ensures { IsVariable text.now result }
{
    match text.strip_prefix(':') {
        Some(rest) => behind_colon(rest),
        None => told_source(text),
    }
}

// What `local` names: what `tz` names, or the machine's own file if TZ isn't set. `None` if `tz`
// names nothing.
fn local_source(tz: Option<&str>) -> Option<Source<'_>>
    ensures { IsLocal (option_map (λ s. s.now) tz.entry) result }
{
    match tz {
        Some(text) => variable_source(text),
        None => Some(Source::Machine),
    }
}

/// What a text names. `local` is what TZ names, whose value is handed in as `tz`: the machine's own
/// file if TZ isn't set, and UTC if it is empty. TZ may begin with a colon, and may then hold an
/// absolute path. `None` if the text is none of these.
pub fn source_of<'a>(text: &'a str, tz: Option<&'a str>) -> Option<Source<'a>>
    ensures { IsSource text.now (option_map (λ s. s.now) tz.entry) result }
{
    if text == "local" {
        return local_source(tz);
    }
    stated_source(text)
}
