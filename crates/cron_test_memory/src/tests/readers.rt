//! The readers that take memory, and the reading of a JSON value.

use super::support::{ACCEPTED, EARLY, check_accepted, check_error, check_same, tell};
use cron::Schedule;
use cron::error::Error;
use serde_json::Value;
use std::alloc::{AllocError, Global};
use std::borrow::CowStr;

#[derive(Clone, Copy)]
enum Reader {
    FromStr,
    TryFromStr,
    TryFromString,
    BorrowedCow,
    OwnedCow,
    FromValue,
}

const READERS: [Reader; 6] = [
    Reader::FromStr,
    Reader::TryFromStr,
    Reader::TryFromString,
    Reader::BorrowedCow,
    Reader::OwnedCow,
    Reader::FromValue,
];

impl Reader {
    // The outcome of the reader, or an error if there is no memory for the text that it takes.
    fn read(self, alloc: Global, text: &str) -> Result<Result<Schedule, Error>, AllocError> {
        Ok(match self {
            Reader::FromStr => Schedule::from_str(alloc, text),
            Reader::TryFromStr => Schedule::try_from_str(alloc, text),
            Reader::BorrowedCow => Schedule::try_from_cow(alloc, CowStr::Borrowed(text)),
            Reader::TryFromString => {
                Schedule::try_from_string(alloc, String::from_str(alloc, text)?)
            }
            Reader::OwnedCow => {
                let text = CowStr::Owned(String::from_str(alloc, text)?);
                Schedule::try_from_cow(alloc, text)
            }
            Reader::FromValue => {
                let value = Value::String(String::from_str(alloc, text)?);
                Schedule::from_value(alloc, &value)
            }
        })
    }
}

#[test]
fn readers_accept(rt: HostRuntime) {
    for reader in READERS {
        match reader.read(rt.alloc(), ACCEPTED) {
            Ok(Ok(schedule)) => check_accepted(&rt, &schedule),
            // the only error of an accepted text is that memory ran out; any other differs from
            // this message
            Ok(Err(error)) => check_error(&rt, &error, "it is accepted"),
            Err(_refused) => tell(&rt, EARLY),
        }
    }
}

const MESSAGE: &str = "Seconds must be less than 59. ('60' specified.)";

#[test]
fn readers_refuse(rt: HostRuntime) {
    for reader in READERS {
        match reader.read(rt.alloc(), "60 * * * * *") {
            Ok(Ok(_read)) => check_same(&rt, "read", "refused"),
            Ok(Err(error)) => check_error(&rt, &error, MESSAGE),
            Err(_refused) => tell(&rt, EARLY),
        }
    }
}
