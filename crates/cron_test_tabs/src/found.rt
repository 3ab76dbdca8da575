//! Crontabs with the warnings that what is around their entries causes: the path of the file, the
//! other entries, and a year in a zone. A scan of each minute of the year counted the rows apart.

use crate::files::{kind_of, without_marks};
use crate::warnings::check;
use anyhow::Result;
use cron_tab_context::{Asked, list_found};
use cron_tab_lines::NamedZone;
use cron_test_rows::Row;
use jiff::Timestamp;
use jiff::tz::TimeZone;

// The names that `CRON_TZ` may have: an empty one is the row's zone.
const NAMES: [NamedZone<'_>; 2] = [
    NamedZone { name: b"", zone: 0 },
    NamedZone {
        name: b"UTC",
        zone: 1,
    },
];

/// Compares what was found in a crontab.
pub(crate) fn ask(row: &mut Row<'_>) -> Result<()> {
    let (kind, path) = (kind_of(row.cell()), row.cell());
    let zones = [TimeZone::posix(row.cell())?, TimeZone::UTC];
    let start = row.cell().parse::<Timestamp>()?;
    let file = without_marks(row.alloc(), row.cell())?;
    let asked = Asked {
        kind,
        path,
        names: &NAMES,
        start,
    };
    for found in &list_found(row.alloc(), &asked, &zones, file.as_bytes())? {
        row.add("; ", &found.line)?;
        row.add(" ", &found.warning)?;
    }
    check(row)
}
