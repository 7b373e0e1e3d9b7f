//! How rings hand each other clauses: each two rings have a slot for each of four classes, into which the one swaps a
//! count of a cell and out of which the other swaps it. Each call takes one atomic step; none waits for anybody, and none
//! takes memory.
//!
//! After Gimsatul (Fleury and Biere 2022): what lies in a slot is counted there, so that whoever swaps it out holds it.
#![tactic(auto)]

mod slots;

pub use ring_port::class_of;
pub use slots::{get, put};
