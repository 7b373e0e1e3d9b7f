//! The word on which the rings count how many clauses they may learn together: a ring draws a ticket there before it
//! learns. A draw takes one atomic step; it waits for nobody, and takes no memory.
//!
//! The word only grows, so that no two rings have the same ticket, and whoever finds none left never finds one again.
#![tactic(auto)]

mod tickets;

pub use ring_port::Drawn;
pub use tickets::draw;
