//! Whose turn it is at a second.
ghost use Rattle.std.specs.Prelude.{◌≡◌, ◌<◌, ◌+◌, ◌%◌};

/// A second, and the number of the person whose turn it is.
#[derive(Clone, Copy)]
pub(crate) struct Turn {
    pub(crate) second: i64,
    pub(crate) person: u32,
}

/// The person after `person`, of `people` people. The first comes after the last.
pub(crate) fn next_person(person: u32, people: u32) -> u32
    requires { person < people }
    ensures { result ≡ (person + 1) % people }
{
    if person + 1 == people { 0 } else { person + 1 }
}
