//! What a ring sees of the outside: the clauses that it holds, the log, the units and the stop that rings share.
#![tactic(auto)]

mod class;
mod draw;
mod gate;
mod laws;
mod opening_units;
mod own_log;
mod plain_calls;
mod plain_lines;
mod plain_port;
mod port;
mod scan;
mod spare;
mod starts;
mod stops;
mod store;
mod words;

pub use class::class_of;
pub use draw::Drawn;
pub use gate::{Gate, OpenGate, Point};
pub use laws::{
    a_log_is_accepted, a_reduction_forgets, dropping_keeps_the_others, held_clauses_are_known,
    held_clauses_are_long, seen_units_are_known,
};
pub use plain_port::PlainPort;
pub use port::Port;
pub use sat_words::Set;
pub use scan::Shape;
pub use starts::Starts;
pub use stops::PortStop;
