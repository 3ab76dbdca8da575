//! A walk over the timeline of sets in a zone, and the same walk reversed.
use super::inputs::{Borrowed, Inputs, Owned};
use cron_moments::moment::Moment;
use cron_time::walk::state::State;
use cron_time::walk::step::step;
use cron_units::way::Way;
use jiff::Timestamp;
use std::marker::Model;

/// A walk over the timeline of its inputs: the readings of the civil seconds that match, in order.
/// Its cursor is at an instant, at an item or at the end. Contracts see its sets, its zone and its
/// cursor.
#[derive(Drop)]
pub struct Walker<C: Inputs> {
    inputs: C,
    state: State,
}

/// A walk over the timeline of a schedule in a zone. It borrows both.
pub type ScheduleIterator<'a> = Walker<Borrowed<'a>>;

/// A walk over the timeline of a schedule in a zone, which owns its sets and its zone.
pub type OwnedScheduleIterator<'z> = Walker<Owned<'z>>;

impl<C: Inputs> Model for Walker<C> {
    ghost use Rattle.cron_time.specs.Walk.Cursor.{Walk};
    ghost use Rattle.cron_time.specs.Walk.Inner.Placed.{cursor_of, stand_of, IsPlaced, Knows};

    ghost Value = { Walk };

    ghost view = { λ w. record {
      sets = C.sets w.inputs;
      zone = C.zone w.inputs;
      cursor = cursor_of (C.sets w.inputs) (C.zone w.inputs) (stand_of w.state);
    } };

    ghost invariant = { λ w. IsPlaced (C.sets w.inputs) (C.zone w.inputs) (stand_of w.state)
        × Knows (C.sets w.inputs) (C.zone w.inputs) w.state };
}

impl<C: Inputs> Walker<C> {
    ghost use Rattle.std.specs.Prelude.{◌≡◌};
    ghost use Rattle.cron_units.specs.declared.way.Way.TheVariants.{Back};
    ghost use Rattle.cron_time.specs.Walk.Cursor.{Start};
    ghost use Rattle.cron_time.specs.Walk.Inner.Placed.{cursor_of, stand_of, IsPlaced, Knows};
    ghost use Rattle.cron_time.specs.Walk.Rest.{Gives};

    /// A walk whose cursor is at `start`.
    pub(crate) fn begin(inputs: C, start: Timestamp) -> Walker<C>
        ensures sets { result.sets ≡ C.sets inputs }
        ensures zone { result.zone ≡ C.zone inputs }
        ensures cursor { result.cursor ≡ Start start.nanosecond }
    {
        Walker {
            inputs,
            state: State::starting(start),
        }
    }

    /// A walk whose cursor is at the place that `state` holds.
    pub(crate) fn at(inputs: C, state: State) -> Walker<C>
        requires placed { IsPlaced (C.sets inputs) (C.zone inputs) (stand_of state) }
        requires known { Knows (C.sets inputs) (C.zone inputs) state }
        ensures sets { result.sets ≡ C.sets inputs }
        ensures zone { result.zone ≡ C.zone inputs }
        ensures cursor { result.cursor
            ≡ cursor_of (C.sets inputs) (C.zone inputs) (stand_of state) }
    {
        Walker { inputs, state }
    }

    #[inline(always)]
    fn step(&mut self, way: Way) -> Option<Moment>
        ensures { Gives way self.old result self.new }
    {
        step(
            self.inputs.fields(),
            self.inputs.zone(),
            way,
            &mut self.state,
        );
        self.state.answer()
    }

    /// Moves the cursor to the item before it and returns that item. `None` if there is none; from
    /// then on both directions return `None` for ever.
    #[inline(always)]
    pub fn next_back(&mut self) -> Option<Moment>
        ensures { Gives Back self.old result self.new }
    {
        self.step(Way::Back)
    }

    /// The same walk with the two directions exchanged. The cursor keeps its place.
    pub fn rev(self) -> Reversed<C>
        ensures { result ≡ self }
    {
        Reversed { walk: self }
    }
}

impl<C: Inputs> Iterator for Walker<C> {
    ghost use Rattle.std.specs.Iterator.{item_count};
    ghost use Rattle.cron_units.specs.declared.way.Way.TheVariants.{Ahead};
    ghost use Rattle.cron_time.specs.Walk.Rest.{Gives, rest_ahead};

    type Item = Moment;

    ghost next_gives = { Gives Ahead };

    ghost remaining = { item_count rest_ahead };

    /// Moves the cursor to the item after it and returns that item. `None` if there is none; from
    /// then on both directions return `None` for ever.
    #[inline(always)]
    fn next(&mut self) -> Option<Moment> {
        self.step(Way::Ahead)
    }
}

/// A walk with the two directions exchanged.
#[derive(Drop)]
pub struct Reversed<C: Inputs> {
    walk: Walker<C>,
}

/// A [`ScheduleIterator`] with the two directions exchanged.
pub type RevScheduleIterator<'a> = Reversed<Borrowed<'a>>;

/// An [`OwnedScheduleIterator`] with the two directions exchanged.
pub type OwnedRevScheduleIterator<'z> = Reversed<Owned<'z>>;

impl<C: Inputs> Model for Reversed<C> {
    ghost use Rattle.cron_time.specs.Walk.Cursor.{Walk};

    ghost Value = { Walk };

    ghost view = { λ r. r.walk };
}

impl<C: Inputs> Reversed<C> {
    ghost use Rattle.cron_units.specs.declared.way.Way.TheVariants.{Ahead};
    ghost use Rattle.cron_time.specs.Walk.Rest.{Gives};

    /// Moves the cursor to the item after it and returns that item. `None` if there is none; from
    /// then on both directions return `None` for ever.
    pub fn next_back(&mut self) -> Option<Moment>
        ensures { Gives Ahead self.old result self.new }
    {
        self.walk.next()
    }
}

impl<C: Inputs> Iterator for Reversed<C> {
    ghost use Rattle.std.specs.Iterator.{item_count};
    ghost use Rattle.cron_units.specs.declared.way.Way.TheVariants.{Back};
    ghost use Rattle.cron_time.specs.Walk.Rest.{Gives, rest_back};

    type Item = Moment;

    ghost next_gives = { Gives Back };

    ghost remaining = { item_count rest_back };

    /// Moves the cursor to the item before it and returns that item. `None` if there is none; from
    /// then on both directions return `None` for ever.
    fn next(&mut self) -> Option<Moment> {
        self.walk.next_back()
    }
}
