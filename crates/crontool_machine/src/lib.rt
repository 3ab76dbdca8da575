//! What subcommands of `crontool` share: access to the machine, the zones that crontabs name, what
//! options choose, how times are written, the domain of calendars, notes of runs, and tips about names
//! that are nearly right.
#![tactic(auto)]

pub mod choices;
pub mod domains;
pub mod looks;
pub mod machine;
pub mod notes;
pub mod pair;
pub mod plans;
pub mod tips;
pub mod zones;
