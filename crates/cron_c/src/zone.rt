//! A zone as plain numbers. The caller may copy it.

ghost use Rattle.std.specs.Prelude.{◌≡◌, MatchOption, IsTrue};
ghost use Rattle.jiff.specs.Words.{plain_zone};
ghost use Rattle.jiff_tz.specs.PosixDay.{is_rule_day};
ghost use Rattle.jiff_tz.specs.declared.posix.Day.{Day};
ghost use Rattle.jiff_tz.specs.declared.posix.DayTime.{DayTime};
ghost use Rattle.jiff_tz.specs.declared.posix.Dst.{Dst};
ghost use Rattle.jiff_tz.specs.declared.timezone.TimeZone.TheVariants.{Posix};
ghost use Rattle.cron_c.specs.Zones.{IsBareDay, IsBlank, IsDayIn, IsNoZone, IsOther, IsRuleOf, IsTurnIn, IsZoneIn, IsZoneStruct};

use jiff::tz::{Offset, TimeZone};
use jiff_tz::posix::{Day, DayTime, Dst, Rule};
use jiff_tz::{Abbreviation, posix};

const UTC: u32 = 0;

/// The kind of a zone with one offset.
pub const FIXED: u32 = 1;

const SAVING: u32 = 2;

const JULIAN_ONE: u32 = 1;

const JULIAN_ZERO: u32 = 2;

const WEEKDAY_OF_MONTH: u32 = 3;

/// A turn of a clock, which comes each year: on this day the clock changes from one offset to
/// another. Kind 1 is day 1 to 365, where 29 February isn't counted, and kind 2 is day 0 to 365.
/// Kind 3 is a day of the week, from 0 for Sunday, in week 1 to 5 of a month, where week 5 is the
/// last. The time is in seconds from the midnight that begins the day, by the clock before the
/// turn, -604,799 to 604,799.
#[repr(C)]
#[derive(Clone, Copy)]
pub struct CronTurn {
    pub kind: u32,
    pub month: u32,
    pub week: u32,
    pub day: u32,
    pub time: i32,
}

/// A zone. Kind 0 is UTC, kind 1 has one offset, and kind 2 has two: the saving offset from
/// `starts` on, and the other from `ends` on. Offsets are in seconds ahead of UTC, up to 25:59:59.
/// The content of `reserved` means nothing, and it is written as 0.
#[repr(C)]
#[derive(Clone, Copy)]
pub struct CronZone {
    pub kind: u32,
    pub offset: i32,
    pub saving: i32,
    pub starts: CronTurn,
    pub ends: CronTurn,
    pub reserved: [u32; 3],
}

// The day in `turn`, or `None` if it isn't valid.
fn day_in(turn: CronTurn) -> Option<Day>
    ensures { MatchOption result
        ((day : Day) → IsTrue (is_rule_day day) → IsDayIn turn day → ⊥)
        (λ day. IsTrue (is_rule_day day) × IsDayIn turn day) }
{
    match turn.kind {
        JULIAN_ONE => {
            if turn.day < 1 || turn.day > 365 {
                return None;
            }
            Some(Day::JulianOne(turn.day as u16))
        }
        JULIAN_ZERO => {
            if turn.day > 365 {
                return None;
            }
            Some(Day::JulianZero(turn.day as u16))
        }
        WEEKDAY_OF_MONTH => {
            if turn.month < 1 || turn.month > 12 {
                return None;
            }
            if turn.week < 1 || turn.week > 5 || turn.day > 6 {
                return None;
            }
            Some(Day::WeekdayOfMonth {
                month: turn.month as u8,
                week: turn.week as u8,
                weekday: turn.day as u8,
            })
        }
        _ => None,
    }
}

// The day and the time in `turn`, or `None` if they aren't valid.
fn turn_in(turn: CronTurn) -> Option<DayTime>
    ensures { MatchOption result
        ((time : DayTime) → IsTurnIn turn time → ⊥) (λ time. IsTurnIn turn time) }
{
    let Some(date) = day_in(turn) else {
        return None;
    };
    if turn.time < -604_799 || turn.time > 604_799 {
        return None;
    }
    Some(DayTime {
        date,
        time: turn.time,
    })
}

// The saving time of `zone`: its offset and its two turns. `None` if they aren't valid.
fn saving_in(zone: &CronZone) -> Option<Dst>
    ensures { MatchOption result
        ((dst : Dst) → zone.now.saving ≡ dst.offset.seconds
        → IsTurnIn zone.now.starts dst.rule.start → IsTurnIn zone.now.ends dst.rule.end → ⊥)
        (λ dst. (zone.now.saving ≡ dst.offset.seconds)
        × IsTurnIn zone.now.starts dst.rule.start × IsTurnIn zone.now.ends dst.rule.end) }
{
    let Ok(offset) = Offset::from_seconds(zone.saving) else {
        return None;
    };
    let Some(start) = turn_in(zone.starts) else {
        return None;
    };
    let Some(end) = turn_in(zone.ends) else {
        return None;
    };
    Some(Dst {
        abbrev: Abbreviation::utc(),
        offset: offset.to_plain(),
        rule: Rule { start, end },
    })
}

// The zone of a rule: its standard offset, and its saving time if it has one.
fn of_rule(offset: Offset, dst: Option<Dst>) -> TimeZone<'static>
    ensures { IsRuleOf offset dst (plain_zone result) }
{
    TimeZone::from_plain(jiff_tz::TimeZone::Posix(posix::TimeZone {
        std_abbrev: Abbreviation::utc(),
        std_offset: offset.to_plain(),
        dst,
    }))
}

/// The zone that a struct means, or `None` if its numbers aren't valid.
pub fn zone_in(zone: &CronZone) -> Option<TimeZone<'static>>
    ensures { MatchOption result
        (IsNoZone zone.now)
        (λ found. IsZoneIn zone.now (plain_zone found)) }
{
    if zone.kind == UTC {
        return Some(TimeZone::UTC);
    }
    let Ok(offset) = Offset::from_seconds(zone.offset) else {
        return None;
    };
    match zone.kind {
        FIXED => Some(of_rule(offset, None)),
        SAVING => {
            let Some(dst) = saving_in(zone) else {
                return None;
            };
            Some(of_rule(offset, Some(dst)))
        }
        _ => None,
    }
}

// The struct of a turn.
fn turn_of(turn: DayTime) -> CronTurn
    ensures turn { IsTurnIn result turn }
    ensures bare { IsBareDay result turn.date }
{
    let (kind, month, week, day) = match turn.date {
        Day::JulianOne(day) => (JULIAN_ONE, 0, 0, u32::from(day)),
        Day::JulianZero(day) => (JULIAN_ZERO, 0, 0, u32::from(day)),
        Day::WeekdayOfMonth {
            month,
            week,
            weekday,
        } => (
            WEEKDAY_OF_MONTH,
            u32::from(month),
            u32::from(week),
            u32::from(weekday),
        ),
    };
    CronTurn {
        kind,
        month,
        week,
        day,
        time: turn.time,
    }
}

// The struct of a zone without saving time: the numbers after its kind and its offset are 0.
fn fixed(kind: u32, offset: i32) -> CronZone
    ensures kind { result.kind ≡ kind }
    ensures offset { result.offset ≡ offset }
    ensures blank { IsBlank result }
{
    let none = CronTurn {
        kind: 0,
        month: 0,
        week: 0,
        day: 0,
        time: 0,
    };
    CronZone {
        kind,
        offset,
        saving: 0,
        starts: none,
        ends: none,
        reserved: [0; 3],
    }
}

/// The struct of the zone of a rule.
pub fn struct_of(rule: posix::TimeZone) -> CronZone
    ensures { IsZoneStruct result (Posix rule) }
{
    match rule.dst {
        None => fixed(FIXED, rule.std_offset.seconds),
        Some(dst) => CronZone {
            kind: SAVING,
            offset: rule.std_offset.seconds,
            saving: dst.offset.seconds,
            starts: turn_of(dst.rule.start),
            ends: turn_of(dst.rule.end),
            reserved: [0; 3],
        },
    }
}

/// The struct of a zone. `None` if the zone is neither UTC nor a rule.
pub fn struct_of_zone(zone: &TimeZone<'_>) -> Option<CronZone>
    ensures { MatchOption result
        (IsOther (plain_zone zone.now))
        (λ c. IsZoneStruct c (plain_zone zone.now)) }
{
    match zone.to_plain() {
        jiff_tz::TimeZone::UTC => Some(fixed(UTC, 0)),
        jiff_tz::TimeZone::Posix(rule) => Some(struct_of(rule)),
        _ => None,
    }
}
