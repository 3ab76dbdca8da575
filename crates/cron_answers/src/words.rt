//! Words of a text.

ghost use Rattle.std.specs.Prelude.{◌≡◌, length, nat_le};
ghost use Rattle.cron_crontab.specs.Crontab.{words};

use cron_crontab::next_word;

/// Whether a text has at least `count` words, with white space between them.
pub(crate) fn has_words(text: &str, count: usize) -> bool
    ensures { result ≡ nat_le count (length (words text.now)) }
{
    let mut rest = text;
    for _before in 0..count {
        match next_word(rest) {
            Some((_, more)) => rest = more,
            None => return false,
        }
    }
    true
}
