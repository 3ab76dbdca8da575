//! The order of items, which are readings of civil seconds, and the nearer of two items.
ghost use Rattle.std.specs.Prelude.{◌≡◌};
ghost use Rattle.cron_instants.specs.Beyond.{is_nearer, nearer_of};
ghost use Rattle.cron_instants.specs.Order as order;

use cron_moments::moment::{Moment, civil_second, instant_of};
use cron_units::way::Way;

/// Returns true if `item` is earlier than `other`: by instant, or by civil second if they share the
/// instant.
#[inline(always)]
pub fn is_earlier(item: &Moment, other: &Moment) -> bool
    ensures { result ≡ order.is_earlier item.now other.now }
{
    let (instant, shared) = (instant_of(item), instant_of(other));
    if instant == shared {
        civil_second(item) < civil_second(other)
    } else {
        instant < shared
    }
}

// Returns true if a search in direction `way` reaches `item` before `other`.
#[inline(always)]
fn is_nearer(way: Way, item: &Moment, other: &Moment) -> bool
    ensures { result ≡ is_nearer way item.now other.now }
{
    match way {
        Way::Ahead => is_earlier(item, other),
        Way::Back => is_earlier(other, item),
    }
}

/// The nearer of `best` and `other` in direction `way`. If one is `None`, it is the other one.
#[inline(always)]
pub fn nearer(way: Way, best: &Option<Moment>, other: Option<Moment>) -> Option<Moment>
    ensures { result ≡ nearer_of way best.now other }
{
    let Some(item) = *best else {
        return other;
    };
    let Some(next) = other else {
        return Some(item);
    };
    if is_nearer(way, &next, &item) {
        Some(next)
    } else {
        Some(item)
    }
}
