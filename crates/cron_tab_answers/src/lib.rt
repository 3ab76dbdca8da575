//! What `crontool` does with crontabs, over any writer. It checks their lines, lists the fires of
//! their entries as rows, and explains the entries.
#![tactic(auto)]

pub mod check;
pub mod explained;
pub mod fault;
pub mod tab_files;
pub mod tab_row;
pub mod tabs;
