//! The shifts of a rota between two instants, one after another.
ghost use Rattle.std.specs.Prelude.{◌≡◌};
ghost use Rattle.std.specs.Iterator.{YieldsFirst};
ghost use Rattle.cron_stretches.specs.Fires.{second_of};
ghost use Rattle.cron_rotas.specs.Rotas.{shifts_between};

use crate::rota::Rota;
use crate::turn::Turn;
use cron_seconds::civil_seconds::CivilSeconds;
use cron_seconds::rule::Rule;
use cron_stretches::fires::second_of;
use cron_stretches::stretch::Stretch;
use jiff::Timestamp;
use std::marker::Model;

/// The shifts between two instants, the first and the last cut at the instants. The first begins at
/// the start of the rota at the earliest. Neighbouring shifts of one person are one. The `value` of
/// a shift is the number of the person. Contracts see the list of the shifts that are left. It
/// takes no memory.
#[derive(Drop)]
pub struct Shifts<'r, 'a, S: CivilSeconds, R: Rule> {
    rota: &'r Rota<'a, S, R>,
    turn: Turn,
    to: i64,
}

impl<'r, 'a, S: CivilSeconds, R: Rule> Model for Shifts<'r, 'a, S, R> {
    ghost use Rattle.std.specs.Prelude.{◌≡◌, ℕ, ◌≤ℤ◌, List, nat_eq};
    ghost use Rattle.cron_stretches.specs.declared.stretch.Stretch.{Stretch};
    ghost use Rattle.cron_stretches.specs.Stretches.{stretches_between};
    ghost use Rattle.cron_stretches.specs.Fires.{IsInstant};
    ghost use Rattle.cron_rotas.specs.Rotas.{person_at, turn_at};

    ghost Value = { List (Stretch ℕ) };

    ghost view = { λ r. stretches_between nat_eq (person_at r.rota.now) r.turn.second r.to };

    ghost invariant = { λ r. IsInstant r.turn.second × IsInstant r.to
        × (r.rota.now.start ≤ℤ r.turn.second)
        × (r.turn.person ≡ turn_at r.rota.now r.turn.second) };
}

impl<'r, 'a, S: CivilSeconds, R: Rule> Shifts<'r, 'a, S, R> {
    // Removes the first shift that is left and returns it. `None` if none is left.
    fn take_first(&mut self) -> Option<Stretch<u32>>
        ensures { YieldsFirst (λ rest. rest) self.old result self.new }
    {
        let turn = self.turn;
        if turn.second >= self.to {
            return None;
        }
        let value = self.rota.person(turn);
        let end = self.rota.shift_end(turn, self.to, value);
        self.turn = end;
        Some(Stretch {
            first: turn.second,
            end: end.second,
            value,
        })
    }
}

impl<'r, 'a, S: CivilSeconds, R: Rule> Iterator for Shifts<'r, 'a, S, R> {
    type Item = Stretch<u32>;

    ghost use Rattle.std.specs.Iterator.{YieldsFirst, item_count};

    ghost next_gives = { YieldsFirst (λ rest. rest) };

    ghost remaining = { item_count (λ rest. rest) };

    fn next(&mut self) -> Option<Stretch<u32>> {
        self.take_first()
    }
}

impl<'a, S: CivilSeconds, R: Rule> Rota<'a, S, R> {
    /// The shifts from `from` on and before `to`. There are none if `to` isn't later than `from`
    /// and the start.
    pub fn shifts<'r>(&'r self, from: Timestamp, to: Timestamp) -> Shifts<'r, 'a, S, R>
        ensures { result ≡ shifts_between self.now (second_of from.nanosecond)
            (second_of to.nanosecond) }
    {
        Shifts {
            rota: self,
            turn: self.turn_from(from),
            to: second_of(to),
        }
    }
}
