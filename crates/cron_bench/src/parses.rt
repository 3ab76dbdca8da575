//! The costs of parses.

use crate::rounds::least_cost;
use anyhow::{Result, ensure};
use cron::Schedule;
use std::alloc::{AllocError, Global};

const TEXTS: [&str; 5] = [
    "0 30 9,12,15 1,15 May-Aug Mon,Wed,Fri 2018/2",
    "* * * * * *",
    "@hourly",
    "0 0 9 * * *",
    "0 0 9 1 1 2 2020",
];

const ITEMS: [&str; 3] = ["0", "0-59", "*"];

const LENGTHS: [u32; 5] = [10, 100, 1_000, 10_000, 100_000];

/// Reads `text` `times` times. Returns true if it was accepted each time.
fn is_read(alloc: Global, text: &str, times: u32) -> bool {
    let mut read: u32 = 0;
    for _ in 0..times {
        if Schedule::from_str(alloc, text).is_ok() {
            read = read.wrapping_add(1);
        }
    }
    read == times
}

/// Prints the least cost of a parse in `rounds` rounds of `times` parses. For a text of 60 bytes or
/// more it prints the length in place of the text.
fn time_parse(rt: &HostRuntime, text: &str, rounds: u32, times: u32) -> Result<()> {
    let mut all_read = true;
    let cost = least_cost(
        rt,
        rounds,
        times,
        || all_read &= is_read(rt.alloc(), text, times),
    )?;
    ensure!(all_read, "{text}: it is refused");
    if text.len() < 60 {
        println!(rt; "parse | {text} | {cost}")?;
    } else {
        println!(rt; "parse | {} bytes | {cost}", text.len())?;
    }
    Ok(())
}

/// Prints the cost of a parse of each text.
pub fn run(rt: &HostRuntime) -> Result<()> {
    for text in TEXTS {
        time_parse(rt, text, 200, 100)?;
    }
    Ok(())
}

/// A text whose first field is a list that has `item` `length` times.
fn list_of(alloc: Global, item: &str, length: u32) -> Result<String, AllocError> {
    let mut text = String::from_str(alloc, item)?;
    for _ in 1..length {
        text.push_str(",")?;
        text.push_str(item)?;
    }
    text.push_str(" 0 0 1 1 1")?;
    Ok(text)
}

/// Prints the costs of parses of longer and longer lists of `item`.
fn time_lists(rt: &HostRuntime, item: &str) -> Result<()> {
    for length in LENGTHS {
        let text = list_of(rt.alloc(), item, length)?;
        let times = if length < 1_000 { 1_000 } else { 10 };
        time_parse(rt, text.as_str(), 5, times)?;
    }
    Ok(())
}

/// Prints the costs of parses of longer and longer lists.
pub fn grow(rt: &HostRuntime) -> Result<()> {
    for item in ITEMS {
        time_lists(rt, item)?;
    }
    Ok(())
}
