//! The stretches and the windows between two instants, one after another.
ghost use Rattle.std.specs.Prelude.{◌≡◌, ◌≤ℤ◌};
ghost use Rattle.std.specs.Bool.{beq};
ghost use Rattle.std.specs.Iterator.{YieldsFirst};
ghost use Rattle.cron_stretches.specs.Laws.{length_if};
ghost use Rattle.cron_stretches.specs.Stretches.{count_between, stretches_between};
ghost use Rattle.cron_stretches.specs.Fires.{IsInstant, second_of};
ghost use Rattle.cron_windows.specs.Windows.{is_open, windows_between};

use crate::windows::Windows;
use cron_seconds::civil_seconds::CivilSeconds;
use cron_seconds::rule::Rule;
use cron_stretches::fires::second_of;
use cron_stretches::stretch::Stretch;
use jiff::Timestamp;
use std::marker::Model;

/// The stretches between two instants, in turn open and closed. The first and the last are cut at
/// the instants. The `value` of a stretch is true if a window is open. Contracts see the list of
/// the stretches that are left. It takes no memory.
#[derive(Drop)]
pub struct States<'w, 'a, S: CivilSeconds, C: CivilSeconds, R: Rule> {
    windows: &'w Windows<'a, S, C, R>,
    place: i64,
    to: i64,
}

impl<'w, 'a, S: CivilSeconds, C: CivilSeconds, R: Rule> Model for States<'w, 'a, S, C, R> {
    ghost use Rattle.std.specs.Prelude.{Bool, List};
    ghost use Rattle.std.specs.Bool.{beq};
    ghost use Rattle.cron_stretches.specs.declared.stretch.Stretch.{Stretch};
    ghost use Rattle.cron_stretches.specs.Stretches.{stretches_between};
    ghost use Rattle.cron_stretches.specs.Fires.{IsInstant};
    ghost use Rattle.cron_windows.specs.Windows.{is_open};

    ghost Value = { List (Stretch Bool) };

    ghost view = { λ r. stretches_between beq (is_open r.windows.now) r.place r.to };

    ghost invariant = { λ r. IsInstant r.place × IsInstant r.to };
}

impl<'w, 'a, S: CivilSeconds, C: CivilSeconds, R: Rule> States<'w, 'a, S, C, R> {
    // Removes the first stretch that is left and returns it. `None` if none is left.
    fn take_first(&mut self) -> Option<Stretch<bool>>
        ensures { YieldsFirst (λ rest. rest) self.old result self.new }
    {
        if self.place >= self.to {
            return None;
        }
        let stretch = self.windows.stretch_from(self.place, self.to);
        self.place = stretch.end;
        Some(stretch)
    }
}

impl<'w, 'a, S: CivilSeconds, C: CivilSeconds, R: Rule> Iterator for States<'w, 'a, S, C, R> {
    type Item = Stretch<bool>;

    ghost use Rattle.std.specs.Iterator.{YieldsFirst, item_count};

    ghost next_gives = { YieldsFirst (λ rest. rest) };

    ghost remaining = { item_count (λ rest. rest) };

    fn next(&mut self) -> Option<Stretch<bool>> {
        self.take_first()
    }
}

/// The windows between two instants, the first and the last cut at the instants. Windows that touch
/// or overlap are one. Contracts see the list of the windows that are left. It takes no memory.
#[derive(Drop)]
pub struct OpenWindows<'w, 'a, S: CivilSeconds, C: CivilSeconds, R: Rule> {
    windows: &'w Windows<'a, S, C, R>,
    place: i64,
    to: i64,
}

impl<'w, 'a, S: CivilSeconds, C: CivilSeconds, R: Rule> Model for OpenWindows<'w, 'a, S, C, R> {
    ghost use Rattle.std.specs.Prelude.{Bool, List};
    ghost use Rattle.cron_stretches.specs.declared.stretch.Stretch.{Stretch};
    ghost use Rattle.cron_stretches.specs.Fires.{IsInstant};
    ghost use Rattle.cron_windows.specs.Windows.{is_open, windows_between};

    ghost Value = { List (Stretch Bool) };

    ghost view = { λ r. windows_between (is_open r.windows.now) r.place r.to };

    ghost invariant = { λ r. IsInstant r.place × IsInstant r.to };
}

impl<'w, 'a, S: CivilSeconds, C: CivilSeconds, R: Rule> OpenWindows<'w, 'a, S, C, R> {
    // Removes the first window that is left and returns it. `None` if none is left.
    fn take_first(&mut self) -> Option<Stretch<bool>>
        ensures { YieldsFirst (λ rest. rest) self.old result self.new }
    {
        match self.windows.window_from(self.place, self.to) {
            Some(window) => {
                self.place = window.end;
                Some(window)
            }
            None => {
                self.place = self.to;
                None
            }
        }
    }
}

impl<'w, 'a, S: CivilSeconds, C: CivilSeconds, R: Rule> Iterator for OpenWindows<'w, 'a, S, C, R> {
    type Item = Stretch<bool>;

    ghost use Rattle.std.specs.Iterator.{YieldsFirst, item_count};

    ghost next_gives = { YieldsFirst (λ rest. rest) };

    ghost remaining = { item_count (λ rest. rest) };

    fn next(&mut self) -> Option<Stretch<bool>> {
        self.take_first()
    }
}

// How many seconds a stretch has, if a window is open.
fn open_length(stretch: &Stretch<bool>) -> u64
    requires instants { IsInstant stretch.now.first × IsInstant stretch.now.end }
    requires later { stretch.now.first ≤ℤ stretch.now.end }
    ensures { result ≡ length_if (λ value. value) stretch.now }
{
    if stretch.value {
        (stretch.end - stretch.first) as u64
    } else {
        0
    }
}

impl<'a, S: CivilSeconds, C: CivilSeconds, R: Rule> Windows<'a, S, C, R> {
    /// The stretches from `from` on and before `to`. There are none if `to` isn't later than
    /// `from`.
    pub fn states<'w>(&'w self, from: Timestamp, to: Timestamp) -> States<'w, 'a, S, C, R>
        ensures { result ≡ stretches_between beq (is_open self.now) (second_of from.nanosecond)
            (second_of to.nanosecond) }
    {
        States {
            windows: self,
            place: second_of(from),
            to: second_of(to),
        }
    }

    /// The windows from `from` on and before `to`. There are none if `to` isn't later than `from`.
    pub fn open_between<'w>(
        &'w self,
        from: Timestamp,
        to: Timestamp,
    ) -> OpenWindows<'w, 'a, S, C, R>
        ensures { result ≡ windows_between (is_open self.now) (second_of from.nanosecond)
            (second_of to.nanosecond) }
    {
        OpenWindows {
            windows: self,
            place: second_of(from),
            to: second_of(to),
        }
    }

    /// How many of the seconds from `from` on and before `to` a window is open. 0 if `to` isn't
    /// later than `from`.
    pub fn open_seconds(&self, from: Timestamp, to: Timestamp) -> u64
        ensures { result
            ≡ count_between (is_open self.now) (second_of from.nanosecond) (second_of to.nanosecond) }
    {
        let (mut place, to) = (second_of(from), second_of(to));
        let mut seconds = 0;
        while place < to {
            let stretch = self.stretch_from(place, to);
            seconds += open_length(&stretch);
            place = stretch.end;
        }
        seconds
    }
}
