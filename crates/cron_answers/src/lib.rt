//! What `crontool` does with expressions, over any writer and any zone files: expressions of three
//! kinds, instants as a shell writes them, fires as rows, missed and pending fires, comparisons.
#![tactic(auto)]

pub mod answer;
mod back;
pub mod compare;
mod day;
pub mod done;
pub mod due;
pub mod explain;
pub mod expression;
pub mod fires;
pub mod instant;
pub mod late;
pub mod lateness;
mod left;
mod listing;
pub mod missed;
pub mod noted;
pub mod notice;
pub mod oncalendar;
pub mod overlap;
pub mod pair;
pub mod pending;
pub mod period;
mod quartz_note;
pub mod refusal;
mod report;
pub mod row;
mod said;
mod shift;
pub mod span;
pub mod stamp;
pub mod subject;
pub mod tally;
mod timed;
pub mod trouble;
pub mod whole;
mod words;
