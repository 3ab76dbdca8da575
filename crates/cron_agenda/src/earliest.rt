//! Finds the first of a list of places while their instants change. It is a tree in one list of
//! words: first its inner words, then one word for each place. The inner word `i` is the least of
//! the words `8i + 1` to `8i + 8`, as far as they exist. So the first word of all is the least of
//! the places' words.
ghost use Rattle.std.specs.Prelude.{◌≡◌, ◌⊎◌, ℕ, ◌+◌, ◌-◌, ◌*◌, ◌<◌, ◌≤◌, [], ◌∷◌, ◌++◌, Some, None, drop, length, slice_get, slice_index, slice_set, take, vec_capacity, vec_len, IfSome, OnOk, OnErr};
ghost use Rattle.cron_instants.specs.Places.{IsFirstPlace};
ghost use Rattle.cron_agenda.specs.Inner.Tree as tree;
ghost use Rattle.cron_agenda.specs.Inner.Words as words;

use crate::words::{NONE, PLACES, place_in, word_of};
use std::alloc::{AllocError, Global};
use std::marker::Model;

/// Places, each with an instant or none. There are at most 2^30 places.
#[derive(Drop)]
pub(crate) struct Earliest {
    words: Vec<u64>,
    inner: usize,
}

impl Model for Earliest {
    ghost use Rattle.std.specs.Prelude.{drop, map, vec_capacity, vec_len};
    ghost use Rattle.cron_agenda.specs.Inner.Tree.{IsKeptTree, Places, room_in};
    ghost use Rattle.cron_agenda.specs.Inner.Words.{instant_in};

    ghost Value = { Places };

    ghost view = { λ e. record {
      instants = map instant_in (drop e.inner e.words.items);
      room = room_in (vec_len e.words) (vec_capacity e.words) e.inner;
    } };

    ghost invariant = { λ e. IsKeptTree e.words.items e.inner };
}

// The word `at`, or `NONE` if `at` is `left_out`.
#[inline(always)]
fn word_but(words: &[u64], at: usize, left_out: usize) -> u64
    requires { at < length words.now }
    ensures { result ≡ slice_index (tree.without words.now left_out) at }
{
    if at == left_out { NONE } else { words[at] }
}

// The least word from `first` on and before `end`, where the word `left_out` counts as `NONE`. It
// is `NONE` if there is no word.
fn least_in(words: &[u64], first: usize, end: usize, left_out: usize) -> u64
    requires { end ≤ length words.now }
    ensures { tree.IsLeastIn (tree.without words.now left_out) first end result }
{
    let mut least = NONE;
    for at in first..end {
        least = least.min(word_but(words, at, left_out));
    }
    least
}

// The least of the words directly below the inner word `at`, where the word `left_out` counts as
// `NONE`.
fn least_below(words: &[u64], at: usize, left_out: usize) -> u64
    requires at { at < length words.now }
    requires most { length words.now ≤ 2_147_483_648 }
    ensures { tree.IsLeastBelow (tree.without words.now left_out) at result }
{
    let first = 8 * at + 1;
    least_in(words, first, words.len().min(first + 8), left_out)
}

// The word `by` steps after the word `at` in the row of eight words from `first` on. The step after
// the last word of the row leads to its first.
#[inline(always)]
fn word_behind(words: &[u64], first: usize, at: usize, by: usize) -> u64
    requires row { first + 8 ≤ length words.now }
    requires low { first ≤ at }
    requires high { at < first + 8 }
    requires by { by < 8 }
    ensures { result ≡ tree.word_behind words.now first at by }
{
    words[first + (at - first + by) % 8]
}

// The lesser of the words `by` and `by + 1` steps after the word `at` in its row.
#[inline(always)]
fn least_of_two(words: &[u64], first: usize, at: usize, by: usize) -> u64
    requires row { first + 8 ≤ length words.now }
    requires low { first ≤ at }
    requires high { at < first + 8 }
    requires by { by + 2 ≤ 8 }
    ensures { tree.IsLeastOf (tree.word_behind words.now first at) by (by + 2) result }
{
    word_behind(words, first, at, by).min(word_behind(words, first, at, by + 1))
}

// The least of the seven other words in the row of `at`. It has no jump that depends on `at`, as a
// processor couldn't predict it.
#[inline(always)]
fn least_of_seven(words: &[u64], first: usize, at: usize) -> u64
    requires row { first + 8 ≤ length words.now }
    requires low { first ≤ at }
    requires high { at < first + 8 }
    ensures { tree.IsLeastIn (tree.without words.now at) first (first + 8) result }
{
    let near = least_of_two(words, first, at, 1).min(least_of_two(words, first, at, 3));
    let far = least_of_two(words, first, at, 5).min(word_behind(words, first, at, 7));
    near.min(far)
}

// The least of the words directly below the inner word `above`, without the word `at`, which is one
// of them.
#[inline(always)]
fn least_beside(words: &[u64], above: usize, at: usize) -> u64
    requires below { tree.IsBelow at above }
    requires at { at < length words.now }
    requires most { length words.now ≤ 2_147_483_648 }
    ensures { tree.IsLeastBelow (tree.without words.now at) above result }
{
    let first = 8 * above + 1;
    if first + 8 <= words.len() {
        least_of_seven(words, first, at)
    } else {
        least_below(words, above, at)
    }
}

// Writes `word` at `from`, and corrects the inner words above it. Each is written after the words
// beside it were read: a wide read of a word that was just written waits for the write.
fn write(words: &mut [u64], from: usize, word: u64)
    requires from { from < length words.old }
    requires most { length words.old ≤ 2_147_483_648 }
    ensures right { (i : ℕ) → tree.IsRightAt (slice_set words.old from word) i ⊎ tree.IsBelow from i
        → tree.IsRightAt words.new i }
    ensures rest { (n : ℕ) → from ≤ 8 * n
        → drop n words.new ≡ drop n (slice_set words.old from word) }
{
    let mut at = from;
    let mut least = word;
    while at > 0 {
        let above = (at - 1) / 8;
        let beside = least_beside(words, above, at);
        words[at] = least;
        least = least.min(beside);
        at = above;
    }
    words[0] = least;
}

// Corrects all inner words, the last one first.
fn set_all_right(words: &mut [u64], inner: usize)
    requires inner { inner ≤ length words.old }
    requires most { length words.old ≤ 2_147_483_648 }
    ensures right { tree.IsTree words.new inner }
    ensures places { drop inner words.new ≡ drop inner words.old }
{
    for at in (0..inner).rev() {
        // the first word is below no other word
        words[at] = least_below(words, at, 0);
    }
}

// Takes memory for `more` inner words and `additional` places, and adds the inner words. On an
// error it adds none.
fn widen(
    words: &mut Vec<u64>,
    inner: usize,
    more: usize,
    additional: usize,
) -> Result<(), AllocError>
    requires inner { inner ≤ vec_len words.old }
    requires most { vec_len words.old + more + additional ≤ 2_147_483_648 }
    requires right { tree.IsTree words.old.items inner }
    ensures right { OnOk result (tree.IsTree words.new.items (inner + more)) }
    ensures places { OnOk result (drop (inner + more) words.new.items ≡ drop inner words.old.items) }
    ensures len { OnOk result (vec_len words.new ≡ vec_len words.old + more) }
    ensures room { OnOk result (vec_len words.new + additional ≤ vec_capacity words.new) }
    ensures capacity { vec_capacity words.old ≤ vec_capacity words.new }
    ensures err { OnErr result (words.new.items ≡ words.old.items) }
    ensures full { OnErr result (vec_capacity words.old < vec_len words.old + more + additional) }
{
    let len = words.len();
    words.try_reserve(more + additional)?;
    if more == 0 {
        return Ok(());
    }
    words.resize(len + more, NONE)?;
    words.copy_within(inner..len, inner + more);
    set_all_right(words, inner + more);
    Ok(())
}

impl Earliest {
    /// An empty list of places.
    pub(crate) fn new(alloc: Global) -> Earliest
        ensures { result.instants ≡ [] }
    {
        Earliest {
            words: Vec::new(alloc),
            inner: 0,
        }
    }

    /// Takes memory for `additional` more places. An error if memory runs out, or if there would be
    /// more than 2^30 places.
    pub(crate) fn reserve(&mut self, additional: usize) -> Result<(), AllocError>
        ensures instants { self.new.instants ≡ self.old.instants }
        ensures ok { OnOk result (additional ≤ self.new.room) }
        ensures room { self.old.room ≤ self.new.room }
        ensures err { OnErr result (self.old.room < additional) }
    {
        let places = self.words.len() - self.inner;
        if additional > PLACES - places {
            return Err(AllocError);
        }
        // the fewest inner words for `places + additional` places
        let inner = (places + additional + 5) / 7;
        let more = inner.saturating_sub(self.inner);
        widen(&mut self.words, self.inner, more, additional)?;
        self.inner += more;
        Ok(())
    }

    /// Adds a place after the others. An error, for the same reasons as in `reserve`, adds none.
    pub(crate) fn push(&mut self, instant: Option<i64>) -> Result<(), AllocError>
        requires { IfSome instant words.CanBeKept }
        ensures ok { OnOk result (self.new.instants ≡ self.old.instants ++ instant ∷ []) }
        ensures err { OnErr result (self.new.instants ≡ self.old.instants) }
        ensures room { self.old.room ≤ self.new.room + 1 }
        ensures full { OnErr result (self.old.room ≡ 0) }
    {
        let place = self.words.len() - self.inner;
        if place >= PLACES {
            return Err(AllocError);
        }
        // if no inner word is above the new place, the count of inner words is doubled, plus one
        let more = if place > 7 * self.inner {
            self.inner + 1
        } else {
            0
        };
        widen(&mut self.words, self.inner, more, 1)?;
        self.inner += more;
        let word = word_of(instant, place);
        self.words.push(word)?;
        write(&mut self.words, self.inner + place, word);
        Ok(())
    }

    /// Sets the instant of `place`, or removes it if `instant` is `None`.
    pub(crate) fn set(&mut self, place: usize, instant: Option<i64>)
        requires place { place < length self.old.instants }
        requires instant { IfSome instant words.CanBeKept }
        ensures instants { self.new.instants ≡ slice_set self.old.instants place instant }
        ensures room { self.new.room ≡ self.old.room }
    {
        let at = self.inner + place;
        let word = word_of(instant, place);
        write(&mut self.words, at, word);
    }

    /// Drops the last place, which has no instant.
    pub(crate) fn pop(&mut self)
        requires { slice_get self.old.instants (length self.old.instants - 1) ≡ Some None }
        ensures instants { self.new.instants ≡ take (length self.old.instants - 1) self.old.instants }
        ensures room { self.old.room ≤ self.new.room }
    {
        self.words.pop();
    }

    /// The place with the least instant, and of places that share it the one with the least number.
    /// `None` if no place has an instant.
    pub(crate) fn first(&self) -> Option<usize>
        ensures { IsFirstPlace self.now.instants result }
    {
        if self.words.is_empty() {
            return None;
        }
        place_in(self.words[0])
    }
}
