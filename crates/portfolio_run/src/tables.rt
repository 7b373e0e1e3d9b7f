// The table of a round over what the ruler left, as it is opened for the rings.
ghost use Rattle.std.specs.Prelude.{◌≡◌, ◌≤◌, ◌^◌, ℕ, All, List, IfOk, IfErr};
ghost use Rattle.io_edge.specs.Paths.{IsEmptyWhereTold};
ghost use Rattle.sat_words.specs.Literal.{IsOn};
ghost use Rattle.rup_model.specs.declared.journal.Entry.{Entry};
ghost use Rattle.core_rounds.specs.InRounds.{round_limit};
ghost use Rattle.ring_run.specs.declared.job.Counts.{Counts as CountsData};
ghost use Rattle.portfolio_run.specs.Pauses.{IsPausedAt};
ghost use Rattle.portfolio_run.specs.Reached.{HasReached, pause_of, stopped_answer, unmade_answer};
ghost use Rattle.portfolio_run.specs.Tables.{IsOpened};

use crate::answer::Answer;
use crate::plan::Plan;
use clause_cell::HoleStop;
use drat_text::LineStop;
use io_edge::Sink;
use log_book::Book;
use ruler_simp::Simplified;
use sat_words::{Cref, Formula, MAX_ENTRIES, NoRoom};
use share_rule::{Layout, MakeStop, Pass, Shared, make};
use std::alloc::Global;

/// A table with its first pass and the addresses of the start clauses.
pub(crate) type Opened<S> = (Shared<Book<S>>, Pass<Book<S>>, Vec<Cref>);

/// The answer where there is no table, and the book.
#[derive(Drop)]
pub(crate) struct Unopened<S: Sink> {
    /// The answer.
    pub(crate) answer: Answer,
    /// The book, as far as it came.
    pub(crate) book: Book<S>,
}

/// The answer where the log was stopped before the rings.
pub(crate) fn answer_of_stop(stop: LineStop) -> Answer
    ensures { result ≡ stopped_answer stop }
{
    match stop {
        LineStop::ProofFault => Answer::ProofFault,
        LineStop::Full => Answer::NoHole(NoRoom {
            need: MAX_ENTRIES + 1,
            largest: MAX_ENTRIES,
        }),
        LineStop::Memory => Answer::Memory,
    }
}

/// The answer where no table could be made.
fn answer_of_hole(why: HoleStop) -> Answer
    ensures { result ≡ unmade_answer why }
{
    match why {
        HoleStop::NoHole { need, largest } => Answer::NoHole(NoRoom { need, largest }),
        HoleStop::Memory => Answer::Memory,
    }
}

/// Begins a round of so many lemmas in the log, and opens a table for the plan's rings over what the ruler left. Refused for want of
/// room or memory it gives the book back.
pub(crate) fn open_table<S: Sink>(
    alloc: Global,
    formula: &Formula,
    plan: &Plan,
    limit: u64,
    left: &Simplified,
    book: Book<S>,
) -> Result<Opened<S>, Unopened<S>>
    ghost known: { S × List CountsData × ℕ × List Entry }
    requires threads { (1 ≤ plan.now.threads) × (plan.now.threads ≤ 16) }
    requires conflicts { plan.now.conflicts ≤ 10 ^ 12 }
    requires words { plan.now.words ≤ 2 ^ 31 }
    requires slots { (1 ≤ plan.now.slots) × (plan.now.slots ≤ 16) }
    requires few { formula.now.vars ≤ 2 ^ 30 }
    requires on { All (All (IsOn formula.now.vars)) formula.now.clauses }
    requires empty { IsEmptyWhereTold (S.written known.0) }
    requires limit { limit ≡ round_limit plan.now.round plan.now.conflicts known.2 }
    requires paused { IsPausedAt (pause_of S.written S.flushed S.target S.faults known.0 plan.now formula.now left.now known.1 known.2 book) known.3 }
    ensures opened { IfOk result (λ m. IsOpened S.written S.flushed S.target S.faults known.0 plan.now formula.now left.now known.1 known.2 limit m.0 m.1 m.2.items) }
    ensures unopened { IfErr result (λ e. HasReached S.written S.flushed S.target S.faults known.0 plan.now formula.now e.answer known.1 e.book) }
{
    let mut book = book;
    // No entry adds the empty clause.
    book.ended = false;
    let begun = book.open_round();
    book.has_its_log();
    if let Err(stop) = begun {
        return Err(Unopened {
            answer: answer_of_stop(stop),
            book,
        });
    }
    let layout = Layout {
        rings: plan.threads,
        vars: left.vars,
        words: plan.words,
        depth: plan.slots,
        conflicts: limit,
    };
    match make(
        alloc,
        formula,
        layout,
        left.start.as_slice(),
        left.units.as_slice(),
        book,
    ) {
        Ok(opened) => Ok(opened),
        Err(MakeStop { why, book }) => Err(Unopened {
            answer: answer_of_hole(why),
            book,
        }),
    }
}
