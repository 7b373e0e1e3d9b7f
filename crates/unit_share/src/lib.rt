//! Units that all rings see. A unit's line stands in the log first; in a later turn the unit is listed, and every ring
//! reads the list from where it left off. Each call takes one to three atomic steps and no memory, and waits for nobody.
#![tactic(auto)]

mod units;

pub use units::{next_unit, publish};
