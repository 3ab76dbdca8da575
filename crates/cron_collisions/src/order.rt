//! Whether seconds ascend.
ghost use Rattle.std.specs.Prelude.{◌↔◌, IsTrue};
ghost use Rattle.cron_collisions.specs.Collisions.{Ascends};

/// Whether no second of the list is less than the one before it. Equal seconds may follow each
/// other.
pub fn ascends(seconds: &[i64]) -> bool
    ensures { IsTrue result ↔ Ascends seconds.now }
{
    for place in 1..seconds.len() {
        if seconds[place] < seconds[place - 1] {
            return false;
        }
    }
    true
}
