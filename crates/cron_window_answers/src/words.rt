//! The windows that the words of a subcommand name: when they open, and what closes them.

ghost use Rattle.std.specs.Prelude.{◌≡◌, ◌<◌, ◌*◌, ◌⊎◌, MatchOption, MatchResult};
ghost use Rattle.std.specs.Int.NonZero.{non_zero_u32_get};
ghost use Rattle.cron_window_answers.specs.Windows.{AreNotSought, AreSought, IsClosing, IsNoClosing};

use cron_answers::expression::{Expression, read_as};
use cron_answers::subject::{Subject, subject_of};
use cron_answers::trouble::Trouble;
use cron_fires::ClockChanges;
use cron_zones::files::ZoneFiles;
use cron_zones::open::Places;
use std::alloc::Global;
use std::num::NonZeroU32;

/// The seconds of a minute.
const MINUTE: u32 = 60;

/// What closes a window, not read yet.
#[derive(Clone, Copy)]
pub enum Closes<'a> {
    /// The value of `--closes`: an expression, at whose next fire a window closes.
    At(&'a str),
    /// The value of `--minutes` as seconds: how long a window is open.
    After(NonZeroU32),
}

/// The arguments that name windows, not read yet.
#[derive(Clone, Copy)]
pub struct Words<'a> {
    /// The value of `--opens`: an expression, at whose fires windows open.
    pub opens: &'a str,
    /// The value of `--closes` or of `--minutes`.
    pub closes: Closes<'a>,
    /// Whether expressions are expressions of Quartz.
    pub quartz: bool,
    /// The value of `--zone`.
    pub zone: &'a str,
    /// The rule at clock changes that was chosen, for both expressions. `None` is the opening
    /// expression's own.
    pub changes: Option<ClockChanges>,
}

/// The seconds of `minutes` minutes. `None` exactly if that is 0, or above 71,582,788.
pub fn seconds_of(minutes: u32) -> Option<NonZeroU32>
    ensures { MatchOption result ((minutes ≡ 0) ⊎ (71_582_788 < minutes))
        (λ seconds. non_zero_u32_get seconds ≡ minutes * 60) }
{
    match minutes.checked_mul(MINUTE) {
        Some(seconds) => NonZeroU32::new(seconds),
        None => None,
    }
}

/// What closes a window, already read.
#[derive(Drop)]
pub(crate) enum Closing {
    /// The next fire of an expression.
    At(Expression),
    /// A number of seconds that pass.
    After(NonZeroU32),
}

/// What words name: the opening expression and the zone, and what closes windows.
#[derive(Drop)]
pub(crate) struct Sought<'a> {
    pub(crate) subject: Subject<'a>,
    pub(crate) closing: Closing,
}

// Reads what closes windows. `Err` has the text if it is no expression.
fn closing_of<'a>(closes: Closes<'a>, quartz: bool) -> Result<Closing, Trouble<'a>>
    ensures { MatchResult result (IsClosing quartz closes.entry) (IsNoClosing quartz closes.entry) }
{
    match closes {
        Closes::At(text) => match read_as(quartz, text) {
            Ok(expression) => Ok(Closing::At(expression)),
            Err(refusal) => Err(Trouble::Expression(text, refusal)),
        },
        Closes::After(seconds) => Ok(Closing::After(seconds)),
    }
}

/// Reads the expressions and opens the zone. `Err` has the first that fails of the opening
/// expression, the zone, and the closing expression.
pub(crate) fn sought_of<'a, F: ZoneFiles>(
    alloc: Global,
    words: &Words<'a>,
    places: &Places<'a>,
    files: &mut F,
) -> Result<Sought<'a>, Trouble<'a>>
    ensures { MatchResult result
        (λ sought. AreSought F.reads places.now words.now files.old sought files.new)
        (λ trouble. AreNotSought F.reads places.now words.now files.old trouble files.new) }
{
    let subject = match subject_of(alloc, words.quartz, words.opens, words.zone, places, files) {
        Ok(subject) => subject,
        Err(trouble) => return Err(trouble),
    };
    match closing_of(words.closes, words.quartz) {
        Ok(closing) => Ok(Sought { subject, closing }),
        Err(trouble) => Err(trouble),
    }
}
