//! Several sets of any kind as one.

use crate::nearest::{are_clear, nearest_of, nearest_past};
use cron_seconds::civil_seconds::CivilSeconds;
use cron_units::way::Way;

/// Several sets as one: the civil seconds in any of them. For schedules, [`Union`] is faster.
///
/// [`Union`]: crate::Union
#[derive(Clone, Copy)]
pub struct AnyOf<'a, S> {
    /// The sets, in any order.
    pub sets: &'a [S],
}

impl<'a, S: CivilSeconds> CivilSeconds for AnyOf<'a, S> {
    ghost use Rattle.cron_unions.specs.Unions.{any_in};

    ghost has = { λ any. any_in S.has any.sets.now };

    type Cursor = ();

    ghost knows = { λ any cursor. Unit {0} };

    fn nearest(&self, way: Way, from: i64) -> Option<u32> {
        nearest_of(self.sets, way, from)
    }

    fn begin() {}

    fn past(&self, way: Way, second: u32, _cursor: &mut ()) -> Option<u32> {
        nearest_past(self.sets, way, second)
    }

    fn is_clear(&self, first: u32, end: u32) -> bool {
        are_clear(self.sets, first, end)
    }
}
