//! The calls of walks and the calls by instants, each made many times.

use cron::Schedule;
use cron_fires::{Dues, Fires, first_due_after, first_fire_after};
use jiff::Timestamp;
use jiff::tz::TimeZone;

/// A call that is measured.
#[derive(Clone, Copy)]
pub enum Call {
    Next,
    NextBack,
    /// `next` of a new walk for each call.
    FreshNext,
    /// The fires by instants, one after another.
    Fires,
    /// The first fire after the same start in each call.
    FirstFire,
    /// The due fires, one after another: each match fires once.
    DueFires,
    /// The first due fire after the same start in each call.
    FirstDueFire,
}

impl Call {
    /// Makes `calls` calls from `start` on. Returns the index of the last call that gave nothing,
    /// or 0 if there is none.
    pub fn make(
        self,
        schedule: &Schedule,
        start: Timestamp,
        zone: &TimeZone<'_>,
        calls: u32,
    ) -> u32 {
        match self {
            Call::Next => ahead(schedule, start, zone, calls),
            Call::NextBack => back(schedule, start, zone, calls),
            Call::FreshNext => fresh(schedule, start, zone, calls),
            Call::Fires => fires(schedule, start, zone, calls),
            Call::FirstFire => first_fires(schedule, start, zone, calls),
            Call::DueFires => due_fires(schedule, start, zone, calls),
            Call::FirstDueFire => first_due_fires(schedule, start, zone, calls),
        }
    }
}

/// Calls `next` `calls` times, on a new walk whenever one ends. Returns the index of the last call
/// that found an end, or 0.
fn ahead(schedule: &Schedule, start: Timestamp, zone: &TimeZone<'_>, calls: u32) -> u32 {
    let mut walk = schedule.after(start, zone);
    let mut ended = 0;
    for call in 0..calls {
        if walk.next().is_none() {
            walk = schedule.after(start, zone);
            ended = call;
        }
    }
    ended
}

/// Calls `next_back` `calls` times, on a new walk whenever one ends. Returns the index of the last
/// call that found an end, or 0.
fn back(schedule: &Schedule, end: Timestamp, zone: &TimeZone<'_>, calls: u32) -> u32 {
    let mut walk = schedule.after(end, zone);
    let mut ended = 0;
    for call in 0..calls {
        if walk.next_back().is_none() {
            walk = schedule.after(end, zone);
            ended = call;
        }
    }
    ended
}

/// Calls `next` once on each of `calls` walks. Returns the index of the last walk without an item,
/// or 0.
fn fresh(schedule: &Schedule, start: Timestamp, zone: &TimeZone<'_>, calls: u32) -> u32 {
    let mut walk = schedule.after(start, zone);
    let mut ended = 0;
    for call in 0..calls {
        if walk.next().is_none() {
            ended = call;
        }
        walk = schedule.after(start, zone);
    }
    ended
}

/// Calls `next` of a run of fires `calls` times, on a new run whenever one ends. Returns the index
/// of the last call that found an end, or 0.
fn fires(schedule: &Schedule, start: Timestamp, zone: &TimeZone<'_>, calls: u32) -> u32 {
    let mut run = Fires::after(schedule, start, zone);
    let mut ended = 0;
    for call in 0..calls {
        if run.next().is_none() {
            run = Fires::after(schedule, start, zone);
            ended = call;
        }
    }
    ended
}

/// Searches the first fire after `start` `calls` times. Returns the index of the last call that
/// found none, or 0.
fn first_fires(schedule: &Schedule, start: Timestamp, zone: &TimeZone<'_>, calls: u32) -> u32 {
    let mut ended = 0;
    for call in 0..calls {
        if first_fire_after(schedule, start, zone).is_none() {
            ended = call;
        }
    }
    ended
}

/// Calls `next` of a run of due fires `calls` times, on a new run whenever one ends. Returns the
/// index of the last call that found an end, or 0.
fn due_fires(schedule: &Schedule, start: Timestamp, zone: &TimeZone<'_>, calls: u32) -> u32 {
    let mut run = Dues::after(schedule, start, zone);
    let mut ended = 0;
    for call in 0..calls {
        if run.next().is_none() {
            run = Dues::after(schedule, start, zone);
            ended = call;
        }
    }
    ended
}

/// Searches the first due fire after `start` `calls` times. Returns the index of the last call that
/// found none, or 0.
fn first_due_fires(schedule: &Schedule, start: Timestamp, zone: &TimeZone<'_>, calls: u32) -> u32 {
    let mut ended = 0;
    for call in 0..calls {
        if first_due_after(schedule, start, zone).is_none() {
            ended = call;
        }
    }
    ended
}
