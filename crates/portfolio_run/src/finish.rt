// The proof finished after an answer.
ghost use Rattle.std.specs.Prelude.{◌≡◌};
ghost use Rattle.std.specs.Option.{option_map};
ghost use Rattle.portfolio_run.specs.Reached.{HasReached};
ghost use Rattle.portfolio_run.specs.Solved.{IsSolved, unfinished};

use crate::answer::{Answer, Solved};
use crate::plan::Plan;
use io_edge::{Failed, Sink};
use log_book::Book;
use ring_run::Counts;
use sat_words::Formula;

/// The answer where the proof could not be finished.
fn without_proof(answer: Answer) -> Answer
    ensures { result ≡ unfinished answer }
{
    match answer {
        Answer::Sat(_) => Answer::ProofFault,
        Answer::Unsat => Answer::ProofFault,
        Answer::Unknown => Answer::ProofFault,
        Answer::NoHole(lack) => Answer::NoHole(lack),
        Answer::ProofFault => Answer::ProofFault,
        Answer::Memory => Answer::Memory,
    }
}

/// Writes what is left of the lines, flushes the sink, and gives it back. A verdict holds only if the sink has taken all
/// lines; what else was answered stays. Lines that were kept come back if the sink has taken them.
pub(crate) fn finish<S: Sink>(
    book: Book<S>,
    answer: Answer,
    tally: Vec<Counts>,
    _formula: &Formula,
    _plan: &Plan,
) -> Solved<S>
    ghost sink: { S }
    requires reached { HasReached S.written S.flushed S.target S.faults sink _plan.now _formula.now answer tally.items book }
    ensures solved { IsSolved _plan.now _formula.now result.answer result.tally.items (S.faults sink) (S.faults result.sink) (S.flushed result.sink) (S.written result.sink) (option_map (λ v. v.items) result.lines) }
    ensures target { S.target result.sink ≡ S.target sink }
    ensures tally { result.tally.items ≡ tally.items }
{
    let (finished, sink, lines) = book.finish();
    match finished {
        Ok(()) => Solved {
            answer,
            sink,
            lines,
            tally,
        },
        Err(Failed) => Solved {
            answer: without_proof(answer),
            sink,
            lines: None,
            tally,
        },
    }
}
