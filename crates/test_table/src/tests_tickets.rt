// `ticket_word`: two rings at a table with no ticket, and at one with one.
use crate::tickets::draw_first;
use sat_words::Lit;
use std::alloc::Global;
use std::test::Fail;
use test_formulas::Problem;
use test_tables::{begin, open_with_tickets, start_cell};
use ticket_word::Drawn;

/// What the second of two rings draws, and then the first, if there are so many tickets.
fn draw_each(alloc: Global, tickets: u64) -> Result<[Drawn; 2], Fail> {
    let problem = Problem::new(alloc, 2);
    let problem = problem.with(alloc, &[Lit::new(1, false), Lit::new(2, false)])?;
    let (table, mut first, cells) = open_with_tickets(alloc, &problem, 2, 16, 1, tickets)?;
    let cell = start_cell(&first, cells.as_slice(), 0)?;
    let mut zero = begin(&table, &mut first, 0, cell);
    let mut one = begin(&table, &mut first, 1, cell);
    Ok([draw_first(&table, &mut one), draw_first(&table, &mut zero)])
}

#[test]
fn no_ring_draws_a_ticket_where_there_is_none(rt: HostRuntime) -> Result<(), Fail> {
    assert!(rt; draw_each(rt.alloc(), 0)? == [Drawn::Gone, Drawn::Gone]);
    Ok(())
}

#[test]
fn one_ticket_goes_to_the_ring_that_draws_first(rt: HostRuntime) -> Result<(), Fail> {
    assert!(rt; draw_each(rt.alloc(), 1)? == [Drawn::Ticket, Drawn::Gone]);
    Ok(())
}

#[test]
fn two_tickets_go_to_both_rings(rt: HostRuntime) -> Result<(), Fail> {
    assert!(rt; draw_each(rt.alloc(), 2)? == [Drawn::Ticket, Drawn::Ticket]);
    Ok(())
}
