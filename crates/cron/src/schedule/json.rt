//! Conversions of a schedule to and from a JSON string.

ghost use Rattle.std.specs.Prelude.{◌≡◌, IfOk, IfErr, codes};
ghost use Rattle.cron_units.specs.Texts.{IsMemory};
ghost use Rattle.cron.specs.Json.{IsValueRefusal};
ghost use Rattle.cron_text.specs.Meaning.{Means};
ghost use Rattle.cron_units.specs.Texts.{Tells};
ghost use Rattle.serde_json.specs.Data.{string};
ghost use Rattle.serde_json.specs.View.{view};

use super::Schedule;
use cron_units::error::Error;
use cron_units::specifier::text_error;
use serde_json::Value;
use std::alloc::Global;

// The error of a value that isn't a string.
fn invalid_type(alloc: Global) -> Error
    ensures { Tells (λ text. text ≡ codes "invalid type, expected a valid cron expression") result }
{
    text_error(alloc, "invalid type, expected a valid cron expression")
}

impl Schedule {
    /// The JSON string of the source. Out of memory is its only error.
    pub fn to_value(&self, alloc: Global) -> Result<Value, Error>
        ensures json { IfOk result (λ value. view value ≡ string self.now.source) }
        ensures refused { IfErr result IsMemory }
    {
        let source = String::from_str(alloc, self.source())?;
        Ok(Value::String(source))
    }

    /// Reads a JSON string as [`Schedule::from_str`] does. Any other value is refused with
    /// `invalid type, expected a valid cron expression`.
    pub fn from_value(alloc: Global, value: &Value) -> Result<Schedule, Error>
        ensures source { IfOk result (λ s. view value.now ≡ string s.source) }
        ensures means { IfOk result (λ s. Means s.source s.sets) }
        ensures refused { IfErr result (Tells (IsValueRefusal (view value.now))) }
    {
        match value {
            Value::String(text) => Schedule::from_str(alloc, text.as_str()),
            _ => Err(invalid_type(alloc)),
        }
    }
}
