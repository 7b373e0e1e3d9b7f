//! The tests of `ref_count`, `test_tables`, `stop_word`, `ticket_word`, `pool_exchange` and `log_book`, and what they do a
//! call or two at a time: rings trade counts of one cell, put clauses into slots, set the stop and draw tickets, and a book
//! takes lines. The program has none of it.
#![tactic(auto)]

mod books;
mod slots;
mod stops;
mod tickets;
mod trades;

pub use books::{add_one, delete_one, new_book};
pub use slots::{get_first, give_back, put_first};
pub use stops::stop_with;
pub use tickets::draw_first;
pub use trades::{
    begin_all, count_of, gather_all, give_up_all, read_back, sum_of_reads, trade, trade_all,
};

#[cfg(test)]
mod tests_books;
#[cfg(test)]
mod tests_cells;
#[cfg(test)]
mod tests_slots;
#[cfg(test)]
mod tests_speed;
#[cfg(test)]
mod tests_stops;
#[cfg(test)]
mod tests_tickets;
