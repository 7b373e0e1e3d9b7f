//! The tests of `ring_pass`, and what their rings do over any port: they learn, offer, give up and write, and take what
//! another one put. The program has none of it.
#![tactic(auto)]

mod ports;
mod rows;

pub use ports::{Opened, begin_port, fourth, join_ring, make_four, new_book, open_four, port_of};
pub use rows::{
    Heard, Miss, give_later_up, give_pair_up, give_spare_up, give_up_and_tell, hand_over, hear,
    hear_at, hear_once, learn_later, learn_pair, learn_two, miss_at, offer_both, offer_later,
    offer_pair, read_pair, take_at, take_both, write_two,
};

#[cfg(test)]
mod tests_gates;
#[cfg(test)]
mod tests_passes;
