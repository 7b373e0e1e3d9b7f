//! The ruler: it simplifies a formula before the search, and leaves what the search starts from. A second call, `again`, goes on
//! with what is alive after the lines of a search, between two rounds of it.
#![tactic(auto)]

mod laws;
mod passes;
mod rounds;
mod ruling;
mod starts;

pub use laws::what_is_left_resumes;
pub use passes::Simplifier;
pub use rounds::Schedule;
pub use ruling::{Outcome, Simplified, again, simplify};
pub use starts::with_units;
