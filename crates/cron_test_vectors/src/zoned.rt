//! Questions about an expression in a zone. The first two cells of a row are the expression and the
//! zone.

use crate::{callers, fires, laws, listings, spans, walks};
use anyhow::Result;
use cron::Schedule;
use cron_test_rows::{Row, zone_file, zone_named};
use jiff::tz::TimeZone;

/// The question of a file.
#[derive(Clone, Copy)]
pub(crate) enum Zoned {
    /// The answers of a walk: start and calls.
    Walk,
    /// The answers of a resumed walk: what is shown at an item, its offset, and the calls.
    Resumed,
    /// The parts of the first answer of a walk: start and call.
    Parts,
    /// The answers of walks and searches in a span.
    Span,
    /// Which civil seconds are included: the first one, the step and their number.
    Included,
    /// A single search, and how often it queries the zone.
    Search,
    /// Searches one after another: how many seconds they find, and how many days and look-ups they
    /// take.
    Survey,
    /// The first two instants by the law of one offset: a start.
    FirstInstants,
    /// Fires by instants.
    Fires,
    /// The answers of the functions of `cron_callers`.
    Callers,
    /// A page of a listing: the item, the size, the way and the writer.
    Page,
}

/// A schedule in a zone.
#[derive(Clone, Copy)]
pub(crate) struct Case<'c> {
    pub(crate) schedule: &'c Schedule,
    pub(crate) zone: &'c TimeZone<'c>,
}

fn ask_schedule(row: &mut Row<'_>, asked: Zoned, case: Case<'_>) -> Result<()> {
    match asked {
        Zoned::Walk => walks::ask(row, case),
        Zoned::Resumed => walks::ask_resumed(row, case),
        Zoned::Parts => walks::ask_parts(row, case),
        Zoned::Span => spans::ask(row, case),
        Zoned::Included => spans::ask_included(row, case),
        Zoned::Search => spans::ask_search(row, case),
        Zoned::Survey => spans::ask_survey(row, case),
        Zoned::FirstInstants => laws::ask_first_instants(row, case),
        Zoned::Fires => fires::ask(row, case),
        Zoned::Callers => callers::ask(row, case),
        Zoned::Page => listings::ask_page(row, case),
    }
}

pub(crate) fn ask(row: &mut Row<'_>, asked: Zoned) -> Result<()> {
    let (text, name) = (row.cell(), row.cell());
    let file = zone_file(row, name)?;
    let zone = &zone_named(name, &file)?;
    let schedule = &Schedule::from_str(row.alloc(), text)?;
    ask_schedule(row, asked, Case { schedule, zone })
}
