//! The tests of `unit_share`, and what their rings do over the turn of one book: they write units, learn clauses and delete
//! them, and list a unit that the others read. The program has none of it.
#![tactic(auto)]

mod learners;
mod writers;

pub use learners::{
    begin_over_three, build, draw_ticket, give_up_and_bury, learn, learn_pair, learn_unit,
    list_first,
};
pub use writers::{Writer, begin_writers, gather_writers, make_three, new_book, write_all};

#[cfg(test)]
mod tests_meeting;
#[cfg(test)]
mod tests_row;
#[cfg(test)]
mod tests_units;
