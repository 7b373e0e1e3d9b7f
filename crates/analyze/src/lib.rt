//! Conflict analysis: from a clause that is false on the trail to the lemma that a ring learns.
//!
//! 1. The walk resolves the conflict with the reasons of its literals, the last assigned one first, until one literal of
//!    the conflict's level is left (Marques-Silva and Sakallah 1999). It is the first unique implication point (Zhang,
//!    Madigan, Moskewicz and Malik 2001).
//! 2. Minimisation removes each other literal if the others of its reason are at level 0, in the clause or removable too
//!    (Sörensson and Biere 2009).
//! 3. The lemma has the point's literal first, a level to backjump to and a glue (Audemard and Simon 2009).
//! 4. The variables to bump are those of the walk and of the reasons of the lemma's literals (Liang, Ganesh, Poupart and
//!    Czarnecki 2016).
//! 5. If the log has hints, the tracer finds those of the lemma, and of other lines that follow from the trail.
//!
//! Of specs/, `Walk` defines the walk and its end, `Removable` what minimisation removes, `Lemma` what is learned,
//! `ReasonSide` what is bumped, `Tracing` what hints rest on and `HintOrder` in which order they stand.
#![tactic(auto)]

mod analysis;
mod laws;
mod lemma;
mod marks;
mod minimise;
mod reason_side;
mod tracer;
mod walk;

pub use analysis::{Analysis, Conclusion};
pub use laws::{
    a_lemma_forces_its_first_literal, conflicts_are_at_the_present_level, contains_no_closed,
};
