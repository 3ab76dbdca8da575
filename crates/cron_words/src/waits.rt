//! Waits in words.

ghost use Rattle.std.specs.Prelude.{◌≡◌, IfOk, OnOk};
ghost use Rattle.std.specs.String.{string_bytes};
ghost use Rattle.cron_words.specs.Waits.{parts_text, wait_text, with_part};

use std::alloc::{AllocError, Global};

const MINUTE: u64 = 60;

const HOUR: u64 = 3_600;

const DAY: u64 = 86_400;

// Appends `count` and the unit `noun`, or nothing if `count` is 0.
fn push_part(text: &mut String, count: u64, noun: &str) -> Result<(), AllocError>
    ensures { OnOk result
        (string_bytes text.new ≡ with_part (string_bytes text.old) count noun.now) }
{
    if count == 0 {
        return Ok(());
    }
    let gap = if text.is_empty() { "" } else { " " };
    let end = if count == 1 { "" } else { "s" };
    write!(text, "{gap}{count} {noun}{end}")
}

fn parts_text(alloc: Global, seconds: u64) -> Result<String, AllocError>
    ensures { IfOk result (λ text. string_bytes text ≡ parts_text seconds) }
{
    let mut text = String::new(alloc);
    push_part(&mut text, seconds / DAY, "day")?;
    push_part(&mut text, seconds / HOUR % 24, "hour")?;
    push_part(&mut text, seconds / MINUTE % 60, "minute")?;
    push_part(&mut text, seconds % 60, "second")?;
    Ok(text)
}

/// A wait of `seconds` seconds in words, as `1 day` or `1 hour 30 minutes`.
pub fn wait_text(alloc: Global, seconds: u64) -> Result<String, AllocError>
    ensures { IfOk result (λ text. string_bytes text ≡ wait_text seconds) }
{
    let mut text = parts_text(alloc, seconds)?;
    if text.is_empty() {
        text.push_str("0 seconds")?;
    }
    Ok(text)
}
