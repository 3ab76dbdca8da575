//! A moment from its parts, and from an instant and an offset.

ghost use Rattle.std.specs.Prelude.{◌≡◌, IfSome, Some};
ghost use Rattle.cron_moments.specs.Readings.{Reading};
ghost use Rattle.cron_moments.specs.Parts.{HasParts, ShowsAt};

use crate::civil::{SECONDS, civil_number};
use crate::moment::{Moment, moment_numbered};
use jiff::civil::DateTime;
use jiff::tz::Offset;

impl Moment {
    /// The moment of `date_time` on a clock at `offset`, as `2022-11-06 01:00:00` at `-05:00`.
    /// `None` if the datetime has a part of a second, or is outside of 1970 to 2100.
    pub fn from_parts(date_time: DateTime, offset: Offset) -> Option<Moment>
        ensures parts { IfSome result (HasParts date_time offset) }
        ensures only { (m : Reading) → HasParts date_time offset m → result ≡ Some m }
    {
        if date_time.subsec_nanosecond() != 0 {
            return None;
        }
        let second = civil_number(date_time);
        if second < 0 {
            return None;
        }
        if second >= SECONDS {
            return None;
        }
        Some(moment_numbered(second as u32, offset))
    }
}

/// The moment that a clock at `offset` shows at the instant `second`, in seconds since
/// 1970-01-01T00:00:00Z. `None` if the civil second is outside of 1970 to 2100.
pub fn moment_at(second: i64, offset: Offset) -> Option<Moment>
    ensures parts { IfSome result (ShowsAt second offset) }
    ensures only { (m : Reading) → ShowsAt second offset m → result ≡ Some m }
{
    let shown = second as i128 + offset.seconds() as i128;
    if shown < 0 {
        return None;
    }
    if shown >= SECONDS as i128 {
        return None;
    }
    Some(moment_numbered(shown as u32, offset))
}
