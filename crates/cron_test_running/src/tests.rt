//! Tests of the machine's clock, of notes in a store that fails, and of what failures print.

mod notes;
mod ringing;
mod scheduler;

use std::fmt::Debug;
use std::process::Abort;

/// Compares the result of a case with the wanted one. It is a function to keep the proof of the
/// tests short: an assertion has a branch that prints.
fn check_same<T: PartialEq + Debug + Copy>(rt: &impl Abort, case: &impl Debug, told: T, wanted: T) {
    assert_eq!(rt; told, wanted, "{case:?}");
}
