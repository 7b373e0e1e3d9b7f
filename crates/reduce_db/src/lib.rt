//! Reduction: of the lemmas that may be dropped, the half with the greatest glue is (Audemard and Simon 2009).
#![tactic(auto)]

mod apart;
mod candidate;
mod choice;
mod dropping;
mod laws;
mod moment;
mod reasons;
mod reducing;

pub use apart::tell_apart;
pub use laws::lemmas_come_and_go;
pub use moment::due;
pub use reducing::reduce;
