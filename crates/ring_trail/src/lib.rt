//! The trail of a ring: the literals that are true, in the order in which they became so, each with its level and its
//! reason. One trail serves propagation, analysis and phases.
//!
//! `TrailData` of specs/ is what contracts see, `Reasoned` and `Closed` say what propagation keeps of it, and `laws`
//! that growing and going back keep that too. A place is an index among the steps.
#![tactic(auto)]

mod laws;
mod step;
mod trail;

pub use laws::{
    a_decision_keeps_closed_below, a_decision_keeps_reasons, a_forced_literal_keeps_reasons,
    a_seen_unit_keeps_reasons, an_assignment_keeps_closed_below, going_back_keeps_closed,
    going_back_keeps_places, going_back_keeps_reasons, growth_is_by_assignments,
    more_held_keeps_reasons, places_are_values,
};
pub use step::TrailStep;
pub use trail::Trail;
