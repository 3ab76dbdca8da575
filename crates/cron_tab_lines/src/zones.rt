//! The zone that entries fire in: the last `CRON_TZ` above them names it.

ghost use Rattle.std.specs.Prelude.{◌≡◌};
ghost use Rattle.cron_tab_lines.specs.Views.{file_line_view};
ghost use Rattle.cron_tab_lines.specs.Zones.{names_no_zone, zone_below, zone_named};

use crate::files::FileLine;
use crate::kinds::Line;

/// A zone that `CRON_TZ` may name.
#[derive(Clone, Copy)]
pub struct NamedZone<'a> {
    /// The zone's name, as a value of `CRON_TZ`.
    pub name: &'a [u8],
    /// The zone's number among the caller's zones.
    pub zone: usize,
}

// The zone of the first of `names` whose name is `value`, or `None` if there is none.
fn zone_named(names: &[NamedZone<'_>], value: &[u8]) -> Option<usize>
    ensures { result ≡ zone_named names.now value.now }
{
    for named in names {
        if named.name == value {
            return Some(named.zone);
        }
    }
    None
}

/// The zone of the entries below `line`. If `line` sets `CRON_TZ`, it is the zone that the value
/// names, else `above`, the zone of the entries above. `None` if the value is none of `names`; the
/// entries below `line` then have no zone.
pub fn zone_below(
    names: &[NamedZone<'_>],
    above: Option<usize>,
    line: &FileLine<'_>,
) -> Option<usize>
    ensures { result ≡ zone_below names.now above (file_line_view line.now).outcome }
{
    match &line.read {
        Ok(Line::Zone(value)) => zone_named(names, *value),
        _ => above,
    }
}

/// Returns true if `line` sets `CRON_TZ` to a value that is none of `names`.
pub fn names_no_zone(names: &[NamedZone<'_>], line: &FileLine<'_>) -> bool
    ensures { result ≡ names_no_zone names.now (file_line_view line.now).outcome }
{
    match &line.read {
        Ok(Line::Zone(value)) => zone_named(names, *value).is_none(),
        _ => false,
    }
}
