//! A rota, and who is on duty at an instant.
ghost use Rattle.std.specs.Prelude.{◌≡◌, ◌+◌, ◌%◌, ◌<◌, ◌⊎◌, ◌≤ℤ◌, ◌<ℤ◌, IfSome, MatchResult, Some, true};
ghost use Rattle.std.specs.Int.{int_max};
ghost use Rattle.cron_stretches.specs.Fires.{IsInstant, instants, second_of};
ghost use Rattle.cron_rotas.specs.Errors.{IsNoRota};
ghost use Rattle.cron_rotas.specs.Rotas.{handovers_in, is_rota, on_duty, person_at, turn_at};
ghost use Rattle.cron_rotas.specs.Steps.{IsShift, IsStep};

use crate::error::RotaError;
use crate::swap::{Swap, check_rota, next_edge, swapped};
use crate::turn::{Turn, next_person};
use cron_seconds::civil_seconds::CivilSeconds;
use cron_seconds::rule::Rule;
use cron_seconds::run::Run;
use cron_stretches::fires::{instant_at, next_fire, second_of};
use jiff::Timestamp;
use std::marker::Model;

/// People who take turns: from the start on person 0 is on duty, and each handover, a fire of a
/// set after the start, hands duty to the next. An instant counts as the second it lies in.
/// Contracts see how many people there are, the start, the instants of the handovers, and the swaps.
#[derive(Drop)]
pub struct Rota<'a, S: CivilSeconds, R: Rule> {
    people: u32,
    handovers: S,
    start: i64,
    swaps: &'a [Swap],
    clock: &'a R::Clock,
}

impl<'a, S: CivilSeconds, R: Rule> Model for Rota<'a, S, R> {
    ghost use Rattle.std.specs.Prelude.{◌≡◌, true};
    ghost use Rattle.cron_stretches.specs.Fires.{IsInstant, instants};
    ghost use Rattle.cron_rotas.specs.Rotas.{Duty, is_rota};

    ghost Value = { Duty };

    ghost view = { λ r. record {
      people = r.people;
      start = r.start;
      handovers = instants R.at (R.fires (S.has r.handovers) r.clock.now);
      swaps = r.swaps.now;
    } };

    ghost invariant = { λ r. IsInstant r.start × (is_rota r.people r.swaps.now ≡ true) };
}

// The second of the handover, or `edge` if that is earlier or there is no handover.
fn earlier_of(handover: Option<i64>, edge: i64) -> i64
    ensures within { result ≤ℤ edge }
    ensures first { IfSome handover (λ n. result ≤ℤ n) }
    ensures is { (result ≡ edge) ⊎ (handover ≡ Some result) }
{
    match handover {
        Some(second) if second < edge => second,
        _ => edge,
    }
}

// The person whose turn it is at `to`, of `people` people. Each handover after the second of `turn`
// gives the turn to the next person.
fn turn_after<S: CivilSeconds, R: Rule>(
    handovers: &S,
    turn: Turn,
    to: i64,
    people: u32,
    clock: &R::Clock,
) -> u32
    requires instants { IsInstant turn.second × IsInstant to }
    requires below { turn.person < people }
    ensures { result ≡ (turn.person
        + handovers_in (instants R.at (R.fires (S.has handovers.now) clock.now)) turn.second to)
        % people }
{
    let (last, now) = (instant_at(turn.second), instant_at(to));
    let mut person = turn.person;
    for _ in Run::<&S, R>::between(handovers, last, now, clock) {
        person = next_person(person, people);
    }
    person
}

impl<'a, S: CivilSeconds, R: Rule> Rota<'a, S, R> {
    /// The rota of `people` people, numbered from 0, from `start` on. `Err` exactly if there are no
    /// people, or a swap has no seconds or isn't of one of the people. It has the first such swap.
    pub fn of(
        people: u32,
        handovers: S,
        start: Timestamp,
        swaps: &'a [Swap],
        clock: &'a R::Clock,
    ) -> Result<Rota<'a, S, R>, RotaError>
        ensures { MatchResult result
            (λ rota. (is_rota people swaps.now ≡ true)
            × (rota ≡ record {
              people = people;
              start = second_of start.nanosecond;
              handovers = instants R.at (R.fires (S.has handovers) clock.now);
              swaps = swaps.now;
            }))
            (IsNoRota people swaps.now) }
    {
        check_rota(people, swaps)?;
        Ok(Rota {
            people,
            handovers,
            start: second_of(start),
            swaps,
            clock,
        })
    }

    // Whose turn it is at `to`, which isn't before the second of `turn`.
    fn turn_on(&self, turn: Turn, to: i64) -> Turn
        requires instants { IsInstant turn.second × IsInstant to }
        requires start { self.now.start ≤ℤ turn.second }
        requires later { turn.second ≤ℤ to }
        requires is { turn.person ≡ turn_at self.now turn.second }
        ensures second { result.second ≡ to }
        ensures is { result.person ≡ turn_at self.now to }
    {
        Turn {
            second: to,
            person: turn_after::<S, R>(&self.handovers, turn, to, self.people, self.clock),
        }
    }

    // Whose turn it is at `second`, which isn't before the start.
    pub(crate) fn turn_at(&self, second: i64) -> Turn
        requires instant { IsInstant second }
        requires start { self.now.start ≤ℤ second }
        ensures second { result.second ≡ second }
        ensures is { result.person ≡ turn_at self.now second }
    {
        let first = Turn {
            second: self.start,
            person: 0,
        };
        self.turn_on(first, second)
    }

    // Whose turn it is at an instant, or at the start if that is later.
    pub(crate) fn turn_from(&self, from: Timestamp) -> Turn
        ensures instant { IsInstant result.second }
        ensures second { result.second ≡ int_max (second_of from.nanosecond) self.now.start }
        ensures is { result.person ≡ turn_at self.now result.second }
    {
        let second = second_of(from);
        if second < self.start {
            return self.turn_at(self.start);
        }
        self.turn_at(second)
    }

    /// How many people take turns.
    pub fn people(&self) -> u32
        ensures { result ≡ self.now.people }
    {
        self.people
    }

    // Who is on duty at the second of a turn.
    pub(crate) fn person(&self, turn: Turn) -> u32
        requires { turn.person ≡ turn_at self.now turn.second }
        ensures is { result ≡ person_at self.now turn.second }
        ensures below { result < self.now.people }
    {
        swapped(self.swaps, turn.second).unwrap_or(turn.person)
    }

    // A later second, at most `to`. Nobody else comes on duty before it.
    pub(crate) fn step(&self, turn: Turn, to: i64) -> Turn
        requires instants { IsInstant turn.second × IsInstant to }
        requires start { self.now.start ≤ℤ turn.second }
        requires later { turn.second <ℤ to }
        requires is { turn.person ≡ turn_at self.now turn.second }
        ensures step { IsStep self.now turn.second to result.second }
        ensures is { result.person ≡ turn_at self.now result.second }
    {
        let edge = next_edge(self.swaps, turn.second, to);
        let handover = next_fire::<S, R>(&self.handovers, turn.second, self.clock);
        self.turn_on(turn, earlier_of(handover, edge))
    }

    // Whose turn it is at the end of the shift of `person`, who is on duty at the second of `turn`.
    // The shift ends at `to` at the latest.
    pub(crate) fn shift_end(&self, turn: Turn, to: i64, person: u32) -> Turn
        requires instants { IsInstant turn.second × IsInstant to }
        requires start { self.now.start ≤ℤ turn.second }
        requires later { turn.second <ℤ to }
        requires is { turn.person ≡ turn_at self.now turn.second }
        requires person { person ≡ person_at self.now turn.second }
        ensures shift { IsShift self.now person turn.second to result.second }
        ensures is { result.person ≡ turn_at self.now result.second }
    {
        let mut end = turn;
        while end.second < to {
            if self.person(end) != person {
                return end;
            }
            end = self.step(end, to);
        }
        end
    }

    /// The number of the person who is on duty at an instant. `None` exactly before the start.
    pub fn who(&self, at: Timestamp) -> Option<u32>
        ensures { result ≡ on_duty self.now (second_of at.nanosecond) }
    {
        let second = second_of(at);
        if second < self.start {
            return None;
        }
        let turn = self.turn_at(second);
        Some(self.person(turn))
    }
}
