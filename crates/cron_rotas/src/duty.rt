//! How long a person of a rota is on duty.
ghost use Rattle.std.specs.Prelude.{◌≡◌, ◌≤ℤ◌, ◌-ℤ◌, if◌then◌else◌};
ghost use Rattle.cron_stretches.specs.Fires.{IsInstant, second_of};
ghost use Rattle.cron_stretches.specs.Stretches.{seconds_from};
ghost use Rattle.cron_rotas.specs.Rotas.{seconds_of_duty};

use crate::rota::Rota;
use cron_seconds::civil_seconds::CivilSeconds;
use cron_seconds::rule::Rule;
use cron_stretches::fires::second_of;
use jiff::Timestamp;

// How many seconds there are from `first` on and before `end`, if they count.
fn length_if(counts: bool, first: i64, end: i64) -> u64
    requires instants { IsInstant first × IsInstant end }
    requires later { first ≤ℤ end }
    ensures { result ≡ (if counts then seconds_from (end -ℤ first) else 0) }
{
    if counts { (end - first) as u64 } else { 0 }
}

impl<'a, S: CivilSeconds, R: Rule> Rota<'a, S, R> {
    /// How many of the seconds from `from` on and before `to` a person is on duty. Those of all
    /// people add up to all seconds from `from`, or from the start, to `to`.
    pub fn seconds_of_duty(&self, person: u32, from: Timestamp, to: Timestamp) -> u64
        ensures { result ≡ seconds_of_duty self.now (second_of from.nanosecond)
            (second_of to.nanosecond) person }
    {
        let mut turn = self.turn_from(from);
        let to = second_of(to);
        let mut seconds = 0;
        while turn.second < to {
            let here = self.person(turn);
            let end = self.shift_end(turn, to, here);
            seconds += length_if(here == person, turn.second, end.second);
            turn = end;
        }
        seconds
    }
}
