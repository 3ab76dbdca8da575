//! How answers are written: a few one by one, and many as their number and a checksum over all of
//! them in order.

use cron::schedule::Moment;
use cron_test_rows::Row;
use jiff::civil::DateTime;
use jiff::tz::Offset;
use std::alloc::AllocError;
use std::fmt;

/// The checksum is multiplied by this factor before a number is added to it.
const FACTOR: i64 = 1_000_003;

/// A checksum is less than this and greater than its negative. Modulus and factor are prime.
const MODULUS: i64 = 2_147_483_647;

/// The greatest number of answers that are written one by one.
const FEW: usize = 32;

/// The length in bytes of the longest text that is written as a literal.
const SHORT: usize = 200;

/// The number of the civil second `shown`, from the start of 1970 on.
pub(crate) fn number(shown: DateTime) -> i64 {
    match Offset::UTC.to_timestamp(shown) {
        Ok(instant) => instant.as_second(),
        Err(_) => i64::MIN,
    }
}

/// The number of answers, and their checksum.
#[derive(Clone, Copy)]
pub(crate) struct Tally {
    pub(crate) count: u64,
    sum: i64,
}

impl fmt::Display for Tally {
    fn fmt<W: fmt::Write>(&self, f: &mut fmt::Formatter<W>) -> fmt::Result {
        write!(f, "{}, sum {}", self.count, self.sum)
    }
}

/// The tally of no answers.
pub(crate) const NOTHING: Tally = Tally { count: 0, sum: 0 };

impl Tally {
    fn mix(&mut self, number: i64) {
        self.sum = self.sum.wrapping_mul(FACTOR).wrapping_add(number) % MODULUS;
    }

    /// Adds a number to the checksum, and counts it.
    pub(crate) fn add_number(&mut self, number: i64) {
        self.mix(number);
        self.count = self.count.saturating_add(1);
    }

    /// Adds a moment: what the clock shows, its offset and the instant. `None` changes the
    /// checksum, but isn't counted.
    pub(crate) fn add(&mut self, answer: &Option<Moment>) {
        let Some(moment) = answer else {
            return self.mix(-1);
        };
        self.mix(number(moment.datetime()));
        self.mix(i64::from(moment.offset().seconds()));
        self.add_number(moment.timestamp().as_second());
    }
}

/// Adds the answers one by one, or their number and checksum if there are more than `FEW`.
pub(crate) fn add_all(
    row: &mut Row<'_>,
    separator: &str,
    answers: &[Option<Moment>],
) -> Result<(), AllocError> {
    if answers.len() > FEW {
        let mut tally = NOTHING;
        for answer in answers {
            tally.add(answer);
        }
        return row.add(separator, &tally);
    }
    let mut separator = separator;
    for answer in answers {
        match answer {
            Some(moment) => row.add(separator, moment)?,
            None => row.add(separator, &"None")?,
        }
        separator = ", ";
    }
    Ok(())
}

/// Adds a text of at most `SHORT` bytes as a literal, and other bytes as their number and checksum.
pub(crate) fn add_bytes(
    row: &mut Row<'_>,
    separator: &str,
    bytes: &[u8],
) -> Result<(), AllocError> {
    if let Ok(text) = str::from_utf8(bytes)
        && text.len() <= SHORT
    {
        return row.add(separator, &format_args!("{text:?}"));
    }
    let mut tally = NOTHING;
    for byte in bytes {
        tally.add_number(i64::from(*byte));
    }
    row.add(separator, &tally)
}
