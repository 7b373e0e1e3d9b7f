// What the ruler does with what a round's table held: it deletes some clauses, and goes on with the others.
ghost use Rattle.std.specs.Prelude.{◌≡◌, true, false, List, filter, IfOk, IfErr, OnOk};
ghost use Rattle.rup_model.specs.declared.journal.Entry.{Entry};
ghost use Rattle.sat_words.specs.Formats.{has_hints};
ghost use Rattle.log_book.specs.Books.{told_of};
ghost use Rattle.portfolio_run.specs.Resumed.{is_dropped, kept_of, TookLines, TookFront, AreLeftAfter, WentOn};
ghost use Rattle.portfolio_run.specs.Ruled.{schedule_of};

use crate::plan::Plan;
use drat_text::{LineOut, LineStop};
use io_edge::Sink;
use log_book::Book;
use model_stack::Stack;
use ruler_simp::{Outcome, Schedule, again, with_units};
use sat_words::{Clause, Formula, Lit};
use share_rule::{Ledger, Rest};
use simp_base::LogEnd;
use std::alloc::{AllocError, Global};

/// The greatest glue of a clause that the ruler goes on with after a round (Audemard and Simon 2009).
pub const KEPT_GLUE: u32 = 2;

/// Deletes each clause whose glue is above that, with a line for each, and gives the others back under their numbers, all in order.
fn drop_rests<L: LineOut>(
    alloc: Global,
    rests: Vec<Rest>,
    output: &mut L,
) -> Result<Vec<(u64, Clause)>, LineStop>
    requires unspent { (L.told output.old).spent ≡ false }
    ensures kept { IfOk result (λ kept. kept.items ≡ kept_of rests.items) }
    ensures took { OnOk result (TookLines (L.told output.old) (filter is_dropped rests.items) (L.told output.new)) }
    ensures stopped { IfErr result (λ stop. TookFront rests.items (L.told output.old) (L.told output.new) stop) }
{
    let Ok(mut kept) = Vec::with_capacity(alloc, rests.len()) else {
        return Err(LineStop::Memory);
    };
    for rest in rests {
        let Rest {
            number,
            clause,
            glue,
        } = rest;
        if glue > KEPT_GLUE {
            output.del(number, clause.lits())?;
        } else {
            kept.push_reserved((number, clause));
        }
    }
    Ok(kept)
}

/// Goes on after a round with the clauses that its table held and the listed units: deletes each clause whose glue is above `KEPT_GLUE`,
/// with a line for each, and simplifies the others as the plan asks. The book comes back with each answer. After a fault it takes
/// no more lines; after any error nothing else is left.
pub(crate) fn resume<S: Sink>(
    alloc: Global,
    formula: &Formula,
    plan: &Plan,
    vars: u32,
    rests: Vec<Rest>,
    units: Vec<(Lit, u64)>,
    stack: Stack,
    book: Book<S>,
) -> (Result<Outcome, LineStop>, Book<S>)
    requires unspent { book.log.lines.spent ≡ false }
    requires plain { (schedule_of plan.now).additions ≡ true → has_hints book.log.lines.format ≡ false }
    requires left { (J : List Entry) × AreLeftAfter formula.now.clauses vars rests.items units.items stack (told_of S.written S.flushed S.target S.faults book) J }
    ensures { WentOn formula.now.clauses (schedule_of plan.now) vars rests.items units.items stack (told_of S.written S.flushed S.target S.faults book) (told_of S.written S.flushed S.target S.faults result.1) result.0 }
{
    let mut book = book;
    match drop_rests(alloc, rests, &mut book) {
        Ok(kept) => {
            let clauses = match with_units(alloc, kept, units.as_slice()) {
                Ok(clauses) => clauses,
                Err(AllocError) => return (Err(LineStop::Memory), book),
            };
            let end = LogEnd {
                entries: book.entries(),
                last: book.last(),
            };
            let schedule = Schedule {
                rounds: plan.rounds,
                additions: plan.additions,
            };
            again(
                alloc, formula, vars, clauses, units, schedule, stack, end, book,
            )
        }
        Err(stop) => (Err(stop), book),
    }
}
