//! A checker of lines.

ghost use Rattle.std.specs.Prelude.{IfOk, MatchOption};
ghost use Rattle.std.specs.String.{string_bytes};
ghost use Rattle.cron.specs.Words.{IsRefusal, IsInGrammar};

use cron::Schedule;
use cron::error::ErrorKind;
use std::alloc::{AllocError, Global};

/// Why `line` is refused, or `None` exactly if it is in the grammar. Lack of memory is an error.
pub fn fault_of(alloc: Global, line: &str) -> Result<Option<String>, AllocError>
    ensures { IfOk result (λ fault. MatchOption fault
        (IsInGrammar line.now) (λ text. IsRefusal line.now (string_bytes text))) }
{
    match Schedule::from_str(alloc, line) {
        Ok(_schedule) => Ok(None),
        Err(error) => match error.kind() {
            ErrorKind::Expression(text) => Ok(Some(text.clone()?)),
            ErrorKind::OutOfMemory => Err(AllocError),
        },
    }
}
