//! Tests of the ruler, and trials of it: small random formulas, beside what the simplifiers' definitions say of them, run the
//! slow way.
#![tactic(auto)]

mod draws;
mod left;
mod models;

pub use draws::{VARS, draw_formula};
pub use left::{model_of, numbers_of};
pub use models::{ASSIGNMENTS, assignment_of, has_no_model, is_model_of, models_lift};

#[cfg(test)]
mod again;
#[cfg(test)]
mod hinted;
#[cfg(test)]
mod plain;
#[cfg(test)]
mod ring_entries;
#[cfg(test)]
mod ruler;
#[cfg(test)]
mod tallied;
#[cfg(test)]
mod trials;
