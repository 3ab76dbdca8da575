//! A place and its instant as one word: the lesser of two words has the place that comes first.
ghost use Rattle.std.specs.Prelude.{◌≡◌, ◌<◌, IfSome};
ghost use Rattle.cron_agenda.specs.Inner.Words as inner;

/// The greatest number of places.
pub(crate) const PLACES: usize = 1_073_741_824;

/// The word of a place with no instant, which is greater than every other word.
pub(crate) const NONE: u64 = u64::MAX;

/// The word of `place` with its instant, or [`NONE`].
#[inline(always)]
pub(crate) fn word_of(instant: Option<i64>, place: usize) -> u64
    requires instant { IfSome instant inner.CanBeKept }
    requires place { place < 1_073_741_824 }
    ensures instant { inner.instant_in result ≡ instant }
    ensures place { inner.HasPlace result place }
{
    match instant {
        Some(instant) => (instant + 93_600) as u64 * 1_073_741_824 + place as u64,
        None => NONE,
    }
}

/// The place of `word`, or `None` if it has no instant.
#[inline(always)]
pub(crate) fn place_in(word: u64) -> Option<usize>
    ensures { result ≡ inner.place_in word }
{
    if word < NONE {
        Some((word % 1_073_741_824) as usize)
    } else {
        None
    }
}
