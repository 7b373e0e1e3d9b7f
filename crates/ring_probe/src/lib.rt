//! Failed literals: a literal is tried, and if propagation from it alone falsifies a clause, its negation is true for good
//! (Freeman 1995; Lynce and Marques-Silva 2003).
#![tactic(auto)]

mod probing;

pub use probing::{Probed, probe};
