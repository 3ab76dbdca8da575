//! The four readers of a schedule from a text, which share one grammar.

ghost use Rattle.std.specs.Prelude.{◌≡◌, IfOk, IfErr};
ghost use Rattle.std.specs.Cow.{cow_str_bytes, IsOwnedStr};
ghost use Rattle.std.specs.String.{string_bytes};
ghost use Rattle.cron_text.specs.Meaning.{Means, MeansNothing};
ghost use Rattle.cron_units.specs.Texts.{Tells};
ghost use Rattle.cron_text.specs.Fault.{IsRefusal};

use crate::schedule::Schedule;
use cron_text::{fault_error, fault_of, no_ordinals, read_into};
use cron_units::error::Error;
use std::alloc::Global;
use std::borrow::CowStr;

/// Each reader returns a schedule exactly if the text is in the grammar, out of memory aside. The
/// error holds the message of the first refused field or `Invalid cron expression.`; or, if an
/// allocation failed, `out of memory`. Only the copy of a borrowed text and a message take memory,
/// so an owned text of the grammar is always read.
impl Schedule {
    // The error for the fault of `text`. Few texts have one, so it is kept out of the readers: no
    // other text pays for its stack space.
    #[cold]
    #[inline(never)]
    fn refusal(alloc: Global, text: &str) -> Error
        requires { MeansNothing text.now }
        ensures { Tells (IsRefusal text.now) result }
    {
        fault_error(alloc, fault_of(text))
    }

    /// Reads an expression, as `0 0,30 9 * * Mon-Fri`, and keeps a copy of it.
    pub fn from_str(alloc: Global, text: &str) -> Result<Schedule, Error>
        ensures means { IfOk result (λ s. Means text.now s.sets) }
        ensures source { IfOk result (λ s. s.source ≡ text.now) }
        ensures refused { IfErr result (Tells (IsRefusal text.now)) }
    {
        let mut fields = no_ordinals();
        if !read_into(text, &mut fields) {
            return Err(Schedule::refusal(alloc, text));
        }
        let source = String::from_str(alloc, text)?;
        Ok(Schedule::new(source, fields))
    }

    /// The same as [`Schedule::from_str`], under a second name.
    pub fn try_from_str(alloc: Global, text: &str) -> Result<Schedule, Error>
        ensures means { IfOk result (λ s. Means text.now s.sets) }
        ensures source { IfOk result (λ s. s.source ≡ text.now) }
        ensures refused { IfErr result (Tells (IsRefusal text.now)) }
    {
        Schedule::from_str(alloc, text)
    }

    // Reads `text` and keeps it, or returns it if it means nothing. It takes no memory, as it has
    // no allocator.
    #[inline(always)]
    fn keep(text: String) -> Result<Schedule, String>
        ensures means { IfOk result (λ s. Means (string_bytes text) s.sets) }
        ensures source { IfOk result (λ s. s.source ≡ string_bytes text) }
        ensures same { IfErr result (λ back. back ≡ text) }
        ensures nothing { IfErr result (λ _. MeansNothing (string_bytes text)) }
    {
        let mut fields = no_ordinals();
        if !read_into(text.as_str(), &mut fields) {
            return Err(text);
        }
        Ok(Schedule::new(text, fields))
    }

    /// Reads an expression and keeps `text` itself. On an error `text` is dropped.
    pub fn try_from_string(alloc: Global, text: String) -> Result<Schedule, Error>
        ensures means { IfOk result (λ s. Means (string_bytes text) s.sets) }
        ensures source { IfOk result (λ s. s.source ≡ string_bytes text) }
        ensures refused { IfErr result (Tells (IsRefusal (string_bytes text))) }
        ensures accepted { IfErr result (λ _. MeansNothing (string_bytes text)) }
    {
        match Schedule::keep(text) {
            Ok(schedule) => Ok(schedule),
            Err(text) => Err(Schedule::refusal(alloc, text.as_str())),
        }
    }

    /// Reads an expression. A borrowed text is read as by [`Schedule::from_str`], an owned one as
    /// by [`Schedule::try_from_string`].
    pub fn try_from_cow(alloc: Global, text: CowStr<'_>) -> Result<Schedule, Error>
        ensures means { IfOk result (λ s. Means (cow_str_bytes text.entry) s.sets) }
        ensures source { IfOk result (λ s. s.source ≡ cow_str_bytes text.entry) }
        ensures refused { IfErr result (Tells (IsRefusal (cow_str_bytes text.entry))) }
        ensures accepted { IsOwnedStr text.entry
            → IfErr result (λ _. MeansNothing (cow_str_bytes text.entry)) }
    {
        match text {
            CowStr::Borrowed(text) => Schedule::from_str(alloc, text),
            CowStr::Owned(text) => Schedule::try_from_string(alloc, text),
        }
    }
}
