//! Rows of rotas that are refused, and why.

use crate::rotas::swaps_of;
use crate::windows::schedule_of;
use anyhow::Result;
use cron_fires::AsShown;
use cron_rotas::error::RotaError;
use cron_rotas::rota::Rota;
use cron_test_rows::Row;
use jiff::Timestamp;
use jiff::tz::TimeZone;

/// Compares whether a rota is taken, and why not.
pub(crate) fn ask(row: &mut Row<'_>) -> Result<()> {
    let people = row.cell().parse::<u32>()?;
    let swaps = swaps_of(row.alloc(), row.cell())?;
    let handovers = schedule_of(row, "0 0 9 * * Mon")?;
    let zone = TimeZone::UTC;
    let start = Timestamp::UNIX_EPOCH;
    let made = Rota::<_, AsShown<TimeZone<'_>>>::of(
        people,
        &handovers,
        start,
        swaps.as_slice(),
        &zone,
    );
    match made {
        Ok(_) => row.add("", &"taken")?,
        Err(RotaError::NoPeople) => row.add("", &"no people")?,
        Err(RotaError::Swap(number)) => {
            row.add("", &"swap")?;
            row.add(" ", &number)?;
        }
    }
    row.check("its refusal")
}
