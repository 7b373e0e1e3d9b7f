//! Tests of the simplifiers and of the work that they change, with what makes small formulas and works for them.
#![tactic(auto)]

mod following;
mod formulas;
mod simplifiers;
mod works;

pub use following::{follows, follows_there, is_rat_there, lists_of, lits_of};
pub use formulas::{formula_of, is_on, literal, literals};
pub use simplifiers::{Simplifier, run};
pub use works::{counted_lines, counted_work, text_lines, text_work, written_lines, written_work};

#[cfg(test)]
mod addition;
#[cfg(test)]
mod base;
#[cfg(test)]
mod elimination;
#[cfg(test)]
mod equivalence;
#[cfg(test)]
mod hints;
#[cfg(test)]
mod rows;
#[cfg(test)]
mod subsumption;
#[cfg(test)]
mod units;
