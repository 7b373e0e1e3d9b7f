//! The port of a ring over its pass of the shared table. What the ring holds, has seen and has done is the pass's part, and
//! what the port keeps beside is fields of `RingPass`; contracts see both as the state of a port.
//!
//! Calls that write take the log's turn for each entry, or for several deletions, and may wait for it; all others take steps
//! that wait for nobody. A clause is read only while the ring holds it: its number and literals are read before its last count may go, since its
//! deletion will need them. An offer takes no memory: room for what comes back in it is taken when the clause is learned.
//! Listed units are seen one by one, and kept until they are given; a unit of the ring's own is listed in a second turn, once
//! its line stands. The number of each unit that is seen is kept in a table, by the code of its literal, which also tells whether
//! a unit is listed.
#![tactic(auto)]

mod additions;
mod burials;
mod cells;
mod clauses;
mod deletions;
mod derives;
mod draws;
mod drops;
mod endings;
mod exchange;
mod learns;
mod listed;
mod literals;
mod numbers;
mod offers;
mod pass;
mod port;
mod reads;
mod reductions;
mod refusals;
mod sights;
mod spares;
mod stops;
mod turns;
mod waiting;

pub use pass::RingPass;
