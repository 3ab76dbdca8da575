//! The cost of a call: the least of some rounds.

use anyhow::Result;
use std::fmt;
use std::time::Instant;

/// The cost of a call, shown in nanoseconds with one digit after the point.
#[derive(Clone, Copy)]
pub struct Cost {
    tenths: u128,
}

impl fmt::Display for Cost {
    fn fmt<W: fmt::Write>(&self, f: &mut fmt::Formatter<W>) -> fmt::Result {
        write!(f, "{}.{}", self.tenths / 10, self.tenths % 10)
    }
}

/// The cost of one call in the fastest of `rounds` rounds. Each call of `round` makes `calls`
/// calls.
pub fn least_cost<F: FnMut() -> R, R: Drop>(
    rt: &HostRuntime,
    rounds: u32,
    calls: u32,
    mut round: F,
) -> Result<Cost>
    requires { F.IsAlwaysCallable round }
{
    let mut best = u128::MAX;
    for _ in 0..rounds {
        let begun = Instant::now(rt)?;
        let _told = round();
        best = best.min(begun.elapsed(rt)?.as_nanos());
    }
    Ok(Cost {
        tenths: best.saturating_mul(10) / u128::from(calls.max(1)),
    })
}

/// The time of the longest of `calls` calls of `call`. The argument is the index of the call.
pub fn longest_call<F: FnMut(u32) -> R, R: Drop>(
    rt: &HostRuntime,
    calls: u32,
    mut call: F,
) -> Result<Cost>
    requires { F.IsAlwaysCallable call }
{
    let mut longest = 0;
    for at in 0..calls {
        let begun = Instant::now(rt)?;
        let _told = call(at);
        longest = longest.max(begun.elapsed(rt)?.as_nanos());
    }
    Ok(Cost {
        tenths: longest.saturating_mul(10),
    })
}
