//! The expression and the zone that the arguments of a subcommand name.

ghost use Rattle.std.specs.Prelude.{MatchResult};
ghost use Rattle.cron_answers.specs.Subjects.{IsNoSubject, IsSubject};

use crate::expression::{Expression, read_as};
use crate::trouble::{Trouble, zone_word};
use cron_zones::files::ZoneFiles;
use cron_zones::open::{Places, open};
use cron_zones::zone::Zone;
use std::alloc::Global;

/// An expression, and the zone where it fires.
#[derive(Drop)]
pub struct Subject<'a> {
    /// The expression, as it was read.
    pub expression: Expression,
    /// The zone, as it was opened.
    pub zone: Zone<'a>,
}

/// Reads the expression, which is of Quartz if `quartz`, and opens the zone. `Err` has the first of
/// the two that fails.
pub fn subject_of<'a, F: ZoneFiles>(
    alloc: Global,
    quartz: bool,
    expression: &'a str,
    zone: &'a str,
    places: &Places<'a>,
    files: &mut F,
) -> Result<Subject<'a>, Trouble<'a>>
    ensures { MatchResult result
        (λ subject. IsSubject F.reads places.now quartz expression.now zone.now
        files.old subject.expression subject.zone files.new)
        (λ trouble. IsNoSubject F.reads places.now quartz expression.now zone.now
        files.old trouble files.new) }
{
    let expression = match read_as(quartz, expression) {
        Ok(expression) => expression,
        Err(refusal) => return Err(Trouble::Expression(expression, refusal)),
    };
    match open(alloc, zone, places, files) {
        Ok(zone) => Ok(Subject { expression, zone }),
        Err(error) => Err(Trouble::Zone(zone_word(zone, places), error)),
    }
}
