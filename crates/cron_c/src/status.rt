//! The status that a call returns.

ghost use Rattle.std.specs.Prelude.{◌≡◌};
ghost use Rattle.cron_c.specs.Statuses.{code_of};

/// How a call ended.
#[derive(Clone, Copy, Debug, PartialEq, Eq)]
pub enum Status {
    /// The result was written.
    Done,
    /// There is no such item: none is left in the timeline, no entry of the agenda is due, or the
    /// line of a crontab is no entry.
    NoItem,
    /// The text means nothing, and the message says why.
    Refused,
    /// The text isn't UTF-8.
    NotUtf8,
    /// The text names no zone, or the numbers, the eras or the bytes of a zone file aren't valid.
    /// Or the structs can't hold the zone.
    BadZone,
    /// An instant is out of the range of `jiff::Timestamp`.
    BadInstant,
    /// The call doesn't take a given struct: it is no item, no item of this timeline, or a schedule
    /// that no text means. Or it is an agenda's entry whose rule, schedules or eras don't exist, or
    /// whose place doesn't.
    NotAnItem,
    /// The text means nothing, and the message couldn't be written.
    Untold,
    /// Items were written as far as they fit, and more are left; or eras or schedules don't fit,
    /// and none was written.
    More,
    /// Out of memory.
    NoMemory,
}

impl Status {
    /// The number that the C header gives the status: 0 to 9, in the order of the variants.
    pub fn code(self) -> u32
        ensures { result ≡ code_of self }
    {
        match self {
            Status::Done => 0,
            Status::NoItem => 1,
            Status::Refused => 2,
            Status::NotUtf8 => 3,
            Status::BadZone => 4,
            Status::BadInstant => 5,
            Status::NotAnItem => 6,
            Status::Untold => 7,
            Status::More => 8,
            Status::NoMemory => 9,
        }
    }
}
