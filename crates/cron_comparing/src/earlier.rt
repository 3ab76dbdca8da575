//! The earlier of two civil seconds.
ghost use Rattle.std.specs.Prelude.{◌≡◌};
ghost use Rattle.cron_units.specs.declared.way.Way.TheVariants.{Ahead};
ghost use Rattle.cron_unions.specs.Nearest.{nearer_second};

/// The earlier of two civil seconds. If one is `None`, the other.
#[inline(always)]
pub(crate) fn earlier(first: Option<u32>, other: Option<u32>) -> Option<u32>
    ensures { result ≡ nearer_second Ahead first other }
{
    let Some(second) = first else {
        return other;
    };
    let Some(next) = other else {
        return Some(second);
    };
    if next < second {
        Some(next)
    } else {
        Some(second)
    }
}
