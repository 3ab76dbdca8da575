//! Notes kept in files: a file is replaced whole, so that a reader, also after a crash, finds the
//! old note or the new one.
#![tactic(auto)]

pub mod machine;
pub mod replace;
pub mod store;
