//! A tree that finds the earliest of several places as their instants change. Its owner keeps a key
//! at each place of the tree: the least of the place's own and those of the places below it. The
//! definitions say this exactly, and the lemmas say what the first place has.
#![tactic(auto)]

ghost use Rattle.std.specs.Prelude.{◌≡◌};
ghost use Rattle.cron_earliest.specs.Tree as tree;

/// A place and its instant, in seconds.
#[derive(Clone, Copy)]
pub struct Key {
    pub instant: i64,
    pub place: usize,
}

// Returns true if `key` comes before `other`: by instant, or by place if they share the instant.
#[inline(always)]
fn is_less(key: &Key, other: &Key) -> bool
    ensures { result ≡ tree.is_less key.now other.now }
{
    if key.instant == other.instant {
        key.place < other.place
    } else {
        key.instant < other.instant
    }
}

/// The lesser of two keys. If one is `None`, it is the other one.
#[inline(always)]
pub fn lesser(one: Option<Key>, other: Option<Key>) -> Option<Key>
    ensures { result ≡ tree.lesser one other }
{
    let Some(key) = one else {
        return other;
    };
    let Some(next) = other else {
        return one;
    };
    if is_less(&next, &key) { other } else { one }
}
