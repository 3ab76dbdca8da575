//! Times by a format of `strftime`.
ghost use Rattle.std.specs.Prelude.{◌≡◌, ◌⊎◌, IfErr, IfOk, pos};
ghost use Rattle.jiff_core.specs.declared.error.Error.TheVariants as CoreError;
ghost use Rattle.cron_looks.specs.Formats.{IsFormatted, IsMomentParts, IsTried};

use cron_moments::moment::{Moment, moment_numbered};
use jiff::tz::Offset;
use jiff_core::Error;
use jiff_strtime::{BrokenDownTime, Config, to_bytes};
use std::alloc::Global;

// The parts of a moment: what the clock shows, the offset and the instant.
fn parts_of<'p>(moment: &Moment) -> BrokenDownTime<'p>
    ensures { IsMomentParts moment.now result }
{
    BrokenDownTime {
        offset: Some(moment.offset().to_plain()),
        timestamp: Some(moment.timestamp().to_plain()),
        ..BrokenDownTime::from_datetime(moment.datetime().to_plain())
    }
}

/// What a format shows of a moment.
pub(crate) fn formatted(alloc: Global, format: &str, moment: &Moment) -> Result<Vec<u8>, Error>
    ensures ok { IfOk result (λ text. IsFormatted format.now moment.now (Ok text.items)) }
    ensures err { IfErr result (λ error. (error ≡ CoreError.OutOfMemory)
        ⊎ IsFormatted format.now moment.now (Err error)) }
{
    to_bytes(alloc, Config::new(), format.as_bytes(), &parts_of(moment))
}

// 1970-01-01 00:00:00 +00:00.
fn epoch() -> Moment
    ensures { (result.second ≡ 0) × (result.offset.seconds ≡ pos 0) }
{
    moment_numbered(0, Offset::UTC)
}

/// What a format shows of 1970-01-01 00:00:00 +00:00. On an error it has a directive that `strftime`
/// doesn't have, or one that wants the name of a zone; or memory ran out.
pub fn try_format(alloc: Global, format: &str) -> Result<Vec<u8>, Error>
    ensures ok { IfOk result (λ text. IsTried format.now (Ok text.items)) }
    ensures err { IfErr result (λ error. (error ≡ CoreError.OutOfMemory)
        ⊎ IsTried format.now (Err error)) }
{
    formatted(alloc, format, &epoch())
}
