//! The name that is nearest to a word.

ghost use Rattle.std.specs.Prelude.{◌≡◌, ◌<◌, [], IfOk, IfSome, get_or, length, map};
ghost use Rattle.std.specs.Option.{option_map};
ghost use Rattle.cron_tips.specs.Nearest.{IsFirstLeast, distance, distances, reach};

use std::alloc::{AllocError, Global};
use strsim::osa_distance;

/// A word with more bytes has no name near it.
const LONGEST: usize = 64;

// How many edits make a word a name, in any case of ASCII letters. An edit inserts, removes or
// replaces a letter, or swaps two neighbours.
fn distance(alloc: Global, word: &str, name: &str) -> Result<usize, AllocError>
    ensures { IfOk result (λ edits. edits ≡ distance word.now name.now) }
{
    let word = word.to_ascii_lowercase(alloc)?;
    let name = name.to_ascii_lowercase(alloc)?;
    osa_distance(alloc, word.as_str(), name.as_str())
}

// The number of edits that is too many for a word.
fn reach(word: &str) -> usize
    ensures { result ≡ reach word.now }
{
    if word.len() > LONGEST {
        return 0;
    }
    word.len() / 3 + 1
}

/// The place of the name that is nearest to a word: it takes the fewest edits, and not more than
/// one for each three bytes of the word. Of equally near names it is the first.
pub fn nearest(alloc: Global, word: &str, names: &[&str]) -> Result<Option<usize>, AllocError>
    ensures { IfOk result (IsFirstLeast (reach word.now)
        (distances word.now (map (λ name. name.now) names.now))) }
{
    let mut least = reach(word);
    let mut found = None;
    for (at, name) in names.iter().enumerate() {
        let edits = distance(alloc, word, *name)?;
        if edits < least {
            least = edits;
            found = Some(at);
        }
    }
    Ok(found)
}

/// The text at a place, or `None` without a place.
pub(crate) fn text_at<'a>(texts: &[&'a str], at: Option<usize>) -> Option<&'a str>
    requires { IfSome at (λ i. i < length texts.now) }
    ensures { option_map (λ text. text.now) result
        ≡ option_map (λ i. get_or (map (λ text. text.now) texts.now) i []) at }
{
    match at {
        Some(at) => Some(texts[at]),
        None => None,
    }
}
