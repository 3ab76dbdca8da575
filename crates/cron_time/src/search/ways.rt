//! The next number in a direction, and where a search enters a block of numbers. Block `n` of a
//! width has the numbers from `n * width` on, as an hour has its 60 minutes.
ghost use Rattle.std.specs.Prelude.{◌≡◌, ℕ, ◌+◌, ◌*◌, ◌^◌, ◌<◌, ◌≤◌, ◌⊎◌, pos, MatchOption};
ghost use Rattle.cron_units.specs.Nearest.{LiesFrom};
ghost use Rattle.cron_time.specs.Search.Inner.Blocks.{Enters, IsExtreme};
ghost use Rattle.cron_time.specs.Search.Inner.Questions.{outermost};
ghost use Rattle.cron_time.specs.Search.Inner.Numbers.{beyond};

use cron_units::way::Way;

/// The number after `n`, or the one before it if `way` is back. `None` before 0.
#[inline(always)]
pub(crate) fn past(way: Way, n: u32) -> Option<u32>
    requires { n + 1 < 2 ^ 32 }
    ensures { MatchOption result
        ((k : ℕ) → LiesFrom way (beyond way n) k → ⊥)
        (λ m. pos m ≡ beyond way n) }
{
    match way {
        Way::Ahead => Some(n + 1),
        Way::Back => n.checked_sub(1),
    }
}

/// The number after `n`, or the one before it if `way` is back. `None` if that is `end`, or before
/// 0.
#[inline(always)]
pub(crate) fn past_below(way: Way, n: u32, end: u32) -> Option<u32>
    requires { n < end }
    ensures { MatchOption result
        ((k : ℕ) → LiesFrom way (beyond way n) k → end ≤ k)
        (λ m. (pos m ≡ beyond way n) × (m < end)) }
{
    match way {
        Way::Ahead => {
            if n + 1 == end {
                return None;
            }
            Some(n + 1)
        }
        Way::Back => n.checked_sub(1),
    }
}

/// Where a search enters a block of `width` numbers from outside: at 0 ahead, at the last one back.
#[inline(always)]
pub(crate) fn extreme(way: Way, width: u32) -> u32
    requires { 0 < width }
    ensures value { result ≡ outermost way width }
    ensures extreme { IsExtreme way width result }
    ensures bound { result < width }
{
    match way {
        Way::Ahead => 0,
        Way::Back => width - 1,
    }
}

/// The number within `block` where a search enters it that starts in the block `first`, at the
/// number `rest`. This is `rest` in that block, and the outermost number in others.
#[inline(always)]
pub(crate) fn entry(way: Way, width: u32, first: u32, rest: u32, block: u32) -> u32
    requires rest_in { rest < width }
    requires lies { LiesFrom way (pos first) block }
    ensures enters { Enters way width (pos (first * width + rest)) block result }
    ensures value { (result ≡ rest) ⊎ (result ≡ outermost way width) }
    ensures bound { result < width }
{
    if block == first {
        rest
    } else {
        extreme(way, width)
    }
}

/// The number after `second`, or the one before it if `way` is back, which may be -1.
pub(crate) fn beyond(way: Way, second: u32) -> i64
    ensures { result ≡ beyond way second }
{
    match way {
        Way::Ahead => second as i64 + 1,
        Way::Back => second as i64 - 1,
    }
}
