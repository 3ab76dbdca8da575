//! The arguments of a subcommand that takes two expressions.

use crate::choices::form_of;
use clap::ArgMatches;
use cron_answers::pair::Pair;

/// The two expressions that are compared. `None` if one is missing: a parse of the command line
/// refuses that before.
pub fn pair_of<'a>(words: &ArgMatches<'a>) -> Option<Pair<'a>> {
    Some(Pair {
        quartz: words.get_flag("quartz"),
        first: words.get_str("EXPRESSION")?,
        second: words.get_str("OTHER")?,
        form: form_of(words),
    })
}
