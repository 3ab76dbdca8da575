//! The pairs of fires that collide.
ghost use Rattle.std.specs.Prelude.{◌≡◌, ◌≤◌, ◌+ℤ◌, pos};
ghost use Rattle.cron_collisions.specs.Collisions.{Ascends, AreCollisions};
ghost use Rattle.cron_collisions.specs.Inner.Below.{before, below};

use crate::below::count_below;

/// How two lists of fires collide.
#[derive(Clone, Copy, Debug, PartialEq, Eq)]
pub struct Collisions {
    /// The index in the first list of its earliest fire that collides.
    pub first: usize,
    /// The index in the second list of its earliest fire that collides. The two collide with each
    /// other.
    pub second: usize,
    /// How many pairs of fires collide.
    pub pairs: u128,
}

// The fires of a list against one other fire: how many have ended when it begins, and how many
// begin before it ends.
#[derive(Clone, Copy)]
struct Window {
    ended: usize,
    begun: usize,
}

// The window over `fires` of the fire at `start`. Counting goes on from `earlier`, the window of an
// earlier fire.
fn window_of(fires: &[i64], earlier: Window, start: i64, length: u64) -> Window
    requires ascends { Ascends fires.now }
    requires ended { earlier.ended ≤ below (before length start) fires.now }
    requires begun { earlier.begun ≤ below (start +ℤ pos length) fires.now }
    ensures ended { result.ended ≡ below (before length start) fires.now }
    ensures begun { result.begun ≡ below (start +ℤ pos length) fires.now }
{
    let (start, length) = (i128::from(start), i128::from(length));
    Window {
        ended: count_below(fires, earlier.ended, start - length + 1),
        begun: count_below(fires, earlier.begun, start + length),
    }
}

/// How the fires of two lists collide. Both lists hold starts in seconds, ascending, and each fire
/// lasts `length` seconds. `None` if no two fires collide. It takes one pass over both lists.
pub fn collisions_of(first: &[i64], second: &[i64], length: u64) -> Option<Collisions>
    requires first { Ascends first.now }
    requires second { Ascends second.now }
    ensures { AreCollisions length first.now second.now result }
{
    let mut found = None;
    let mut pairs = 0_u128;
    let mut window = Window { ended: 0, begun: 0 };
    for (place, start) in first.iter().enumerate() {
        window = window_of(second, window, *start, length);
        let here = window.begun.saturating_sub(window.ended);
        pairs += here as u128;
        if found.is_none() && here > 0 {
            found = Some((place, window.ended));
        }
    }
    let (first, second) = found?;
    Some(Collisions {
        first,
        second,
        pairs,
    })
}
