//! The arguments of a command line: EXPRESSION START ZONE COUNT, and perhaps `back`.

ghost use Rattle.std.specs.Prelude.{◌↔◌, IfSome, IsSome, SomeIff, map, string_bytes};
ghost use Rattle.std.specs.Str.Parse.{digits_value};
ghost use Rattle.cron_walk_listing.specs.Arguments.{IsCount, AreReadable, IsRead, IsReadable, Asks};

use cron_moments::zone::zone_of;
use jiff::Timestamp;
use jiff::tz::TimeZone;

/// What the arguments ask for.
#[derive(Drop)]
pub struct Request<'a> {
    /// The expression as it was written, not read yet.
    pub expression: &'a str,
    /// The instant where the list begins. An item at it isn't listed, except in a fold.
    pub start: Timestamp,
    /// UTC, or the zone of a POSIX rule, as `CST6CDT,M3.2.0,M11.1.0`.
    pub zone: TimeZone<'a>,
    /// How many items are listed at most.
    pub count: u32,
    /// True if the list goes back in time.
    pub back: bool,
}

/// The number that the text writes in digits only (`parse` would accept a plus before them). `None`
/// if there is another character or no digit, or if 32 bits can't hold the number.
pub fn count_of(argument: &str) -> Option<u32>
    ensures { SomeIff result (IsCount argument.now) (digits_value 10 argument.now) }
{
    if argument.starts_with('+') {
        return None;
    }
    argument.parse().ok()
}

// Reads the arguments other than the expression from left to right. `None` if one of them can't be
// read.
fn read<'a>(
    expression: &'a str,
    start: &str,
    zone: &'a str,
    count: &str,
    back: bool,
) -> Option<Request<'a>>
    ensures succeeds { IsSome result ↔ AreReadable start.now zone.now count.now }
    ensures value { IfSome result (IsRead expression.now start.now zone.now count.now back) }
{
    Some(Request {
        expression,
        start: start.parse().ok()?,
        zone: zone_of(zone)?,
        count: count_of(count)?,
        back,
    })
}

/// Reads four arguments, or five if the last is `back`. `None` if one of them can't be read. The
/// expression isn't read.
pub fn request_of(arguments: &[String]) -> Option<Request<'_>>
    ensures succeeds { IsSome result ↔ IsReadable (map string_bytes arguments.now) }
    ensures value { IfSome result (Asks (map string_bytes arguments.now)) }
{
    match arguments {
        [expression, start, zone, count] => read(
            expression.as_str(),
            start.as_str(),
            zone.as_str(),
            count.as_str(),
            false,
        ),
        [expression, start, zone, count, last] if last.as_str() == "back" => read(
            expression.as_str(),
            start.as_str(),
            zone.as_str(),
            count.as_str(),
            true,
        ),
        _ => None,
    }
}
