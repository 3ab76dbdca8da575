//! Percent signs: where a command ends, where its input begins, and what both are without
//! backslashes.

ghost use Rattle.std.specs.Prelude.{◌≡◌, ◌==◌, ◌∷◌, [], false, MatchOption};
ghost use Rattle.cron_tab_lines.specs.Bytes.{first};
ghost use Rattle.cron_tab_lines.specs.Entries.{before_percent, command_of, input_of, unescaped};
ghost use Rattle.cron_tab_lines.specs.Views.{bytes_view};

use std::marker::Model;

/// The number of bytes before the first percent sign that no backslash escapes, or the length of
/// `task` if there is none.
pub(crate) fn before_percent(task: &[u8]) -> usize
    ensures { result ≡ before_percent false task.now }
{
    let mut guarded = false;
    for (at, byte) in task.iter().enumerate() {
        if *byte == b'%' && !guarded {
            return at;
        }
        guarded = *byte == b'\\' && !guarded;
    }
    task.len()
}

/// Cuts `task` into the command, which ends at the index `end`, and the input after the percent
/// sign there. Both are unchanged from the line. The input is `None` if there is no such sign.
pub(crate) fn cut_task(task: &[u8], end: usize) -> (&[u8], Option<&[u8]>)
    requires { end ≡ before_percent false task.now }
    ensures command { result.0.now ≡ command_of task.now }
    ensures input { bytes_view result.1 ≡ input_of task.now }
{
    if end >= task.len() {
        return (task, None);
    }
    (&task[..end], Some(&task[end + 1..]))
}

/// An iterator over the bytes of a command or of its input, without the backslashes of percent
/// signs. A percent sign that no backslash escapes becomes a line feed. The iterator allocates no
/// memory. In contracts it is the list of the bytes that are left.
#[derive(Drop)]
pub struct Unescaped<'a> {
    rest: &'a [u8],
}

impl<'a> Model for Unescaped<'a> {
    ghost use Rattle.std.specs.Prelude.{List, ℕ};
    ghost use Rattle.cron_tab_lines.specs.Entries.{unescaped};

    ghost Value = { List ℕ };

    ghost view = { λ u. unescaped u.rest.now };
}

impl<'a> Unescaped<'a> {
    /// The bytes that the shell gets as an entry's command, or that the command reads as its input.
    /// Crons end an input with a line feed; it isn't among these bytes.
    pub fn of(text: &'a [u8]) -> Unescaped<'a>
        ensures { result ≡ unescaped text.now }
    {
        Unescaped { rest: text }
    }
}

impl<'a> Iterator for Unescaped<'a> {
    type Item = u8;

    ghost use Rattle.std.specs.Iterator.{YieldsFirst, item_count};

    ghost next_gives = { YieldsFirst (λ rest. rest) };

    ghost remaining = { item_count (λ rest. rest) };

    fn next(&mut self) -> Option<u8> {
        let (byte, rest) = first_unescaped(self.rest)?;
        self.rest = rest;
        Some(byte)
    }
}

fn begins_with_percent(text: &[u8]) -> bool
    ensures { result ≡ (first text.now == 37) }
{
    match text.first() {
        Some(byte) => *byte == b'%',
        None => false,
    }
}

/// The first byte of `text` without its backslash, and the bytes that are left. `None` if `text` is
/// empty. A percent sign that no backslash escapes is a line feed.
fn first_unescaped(text: &[u8]) -> Option<(u8, &[u8])>
    ensures { MatchOption result
        (unescaped text.now ≡ []) (λ r. unescaped text.now ≡ r.0 ∷ unescaped r.1.now) }
{
    let (first, others) = text.split_first()?;
    if *first == b'%' {
        return Some((b'\n', others));
    }
    if *first == b'\\' && begins_with_percent(others) {
        return Some((b'%', &others[1..]));
    }
    Some((*first, others))
}
