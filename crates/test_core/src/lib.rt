//! Tests of the core of the rings: tables of events and walks over them, with what opens a core.
#![tactic(auto)]

mod literals;
mod opener;

pub use literals::{are_distinct, is_long, names_unit};
pub use opener::{
    all_fit, all_named, core_over, lits_of, next_over, opens, stand_apart, start_clauses,
    start_fits,
};

#[cfg(test)]
mod events;
#[cfg(test)]
mod guards;
#[cfg(test)]
mod hinted;
#[cfg(test)]
mod openings;
#[cfg(test)]
mod reductions;
#[cfg(test)]
mod rounds;
#[cfg(test)]
mod rows;
#[cfg(test)]
mod seen;
#[cfg(test)]
mod tables;
#[cfg(test)]
mod walks;
