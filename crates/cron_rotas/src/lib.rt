//! Rotas: people take turns on duty. Each fire of a set of civil seconds hands duty to the next
//! person, and swaps stand before the turns. Calls say who is on duty at an instant, list the
//! shifts between two instants, and count each person's seconds of duty.
//!
//! ```text
//! let rota = Rota::<_, AsShown<TimeZone<'_>>>::of(people, handovers, start, &swaps, &zone)?;
//! let person = rota.who(now);
//! ```
#![tactic(auto)]

pub mod duty;
pub mod error;
pub mod laws;
pub mod rota;
pub mod shifts;
pub mod swap;
mod turn;
