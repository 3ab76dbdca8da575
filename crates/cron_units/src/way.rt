//! The two directions of a search and of a walk.

/// Towards greater numbers, or towards smaller ones.
#[derive(Clone, Copy, Debug, PartialEq, Eq)]
pub enum Way {
    Ahead,
    Back,
}
