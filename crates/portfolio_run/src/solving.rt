// The call: a formula is decided by rings on threads of their own.
ghost use Rattle.std.specs.Prelude.{◌≡◌, ◌≢◌, ◌≤◌, ◌^◌, ◌⊎◌, true, false, All, [], replicate, length, IfSome};
ghost use Rattle.std.specs.Option.{option_map};
ghost use Rattle.io_edge.specs.Paths.{IsEmptyWhereTold};
ghost use Rattle.sat_words.specs.Formats.{has_hints};
ghost use Rattle.sat_words.specs.Literal.{IsOn};
ghost use Rattle.portfolio_run.specs.Held.{no_counts};
ghost use Rattle.portfolio_run.specs.Pauses.{IsPaused};
ghost use Rattle.portfolio_run.specs.Reached.{pause_of};
ghost use Rattle.portfolio_run.specs.Solved.{IsSolved};
ghost use Rattle.portfolio_run.specs.declared.answer.Answer.TheVariants as answer;

use crate::answer::{Answer, Solved};
use crate::counts::none_counted;
use crate::finish::finish;
use crate::plan::Plan;
use crate::rounds::{Ended, Paused, run_round};
use crate::tables::answer_of_stop;
use io_edge::Sink;
use log_book::Book;
use ring_port::Gate;
use ring_run::Counts;
use ruler_simp::{Outcome, Schedule, simplify};
use sat_words::Formula;
use std::alloc::Global;
use std::sync::Wait;
use std::thread::Threads;

/// Memory ran out before a line was put: the sink is flushed, and given back.
fn starved<S: Sink>(sink: S, tally: Vec<Counts>, _formula: &Formula, _plan: &Plan) -> Solved<S>
    requires threads { 1 ≤ _plan.now.threads }
    requires few { _formula.now.vars ≤ 2 ^ 30 }
    requires on { All (All (IsOn _formula.now.vars)) _formula.now.clauses }
    requires empty { IsEmptyWhereTold (S.written sink) }
    requires none { (tally.items ≡ []) ⊎ (tally.items ≡ replicate _plan.now.threads no_counts) }
    ensures solved { IsSolved _plan.now _formula.now result.answer result.tally.items (S.faults sink) (S.faults result.sink) (S.flushed result.sink) (S.written result.sink) (option_map (λ v. v.items) result.lines) }
    ensures target { S.target result.sink ≡ S.target sink }
    ensures memory { result.answer ≡ answer.Memory }
{
    let mut sink = sink;
    let _ = sink.flush();
    Solved {
        answer: Answer::Memory,
        sink,
        lines: None,
        tally,
    }
}

/// Decides what the ruler left, in rounds of the rings. There are no more of them than lemmas that the rings may learn, or one.
fn solve_left<S: Sink + Send, G: Gate + Sync, H: Threads + Wait + Sync>(
    rt: &H,
    alloc: Global,
    formula: &Formula,
    plan: &Plan,
    gate: &G,
    paused: Paused<S>,
) -> Solved<S>
    ghost known: { S }
    requires threads { (1 ≤ plan.now.threads) × (plan.now.threads ≤ 16) }
    requires conflicts { plan.now.conflicts ≤ 10 ^ 12 }
    requires words { plan.now.words ≤ 2 ^ 31 }
    requires slots { (1 ≤ plan.now.slots) × (plan.now.slots ≤ 16) }
    requires round { IfSome plan.now.round (λ every. 1 ≤ every) }
    requires few { formula.now.vars ≤ 2 ^ 30 }
    requires on { All (All (IsOn formula.now.vars)) formula.now.clauses }
    requires empty { IsEmptyWhereTold (S.written known) }
    requires paused { IsPaused (pause_of S.written S.flushed S.target S.faults known plan.now formula.now paused.left paused.tally.items paused.done paused.book) }
    requires none { paused.counts.items ≡ replicate plan.now.threads no_counts }
    requires plain { plan.now.additions ≡ true → has_hints plan.now.format ≡ false }
    ensures solved { IsSolved plan.now formula.now result.answer result.tally.items (S.faults known) (S.faults result.sink) (S.flushed result.sink) (S.written result.sink) (option_map (λ v. v.items) result.lines) }
    ensures target { S.target result.sink ≡ S.target known }
    ensures counted { length result.tally.items ≡ plan.now.threads }
{
    let mut paused = paused;
    loop {
        match run_round(rt, alloc, formula, plan, gate, paused) {
            Ok(next) => paused = next,
            Err(
                Ended {
                    answer,
                    book,
                    tally,
                },
            ) => return finish(book, answer, tally, formula, plan),
        }
    }
}

/// Decides a formula with a sink, the one that is given, if no ring has counted anything yet.
fn solve_counted<S: Sink + Send, G: Gate + Sync, H: Threads + Wait + Sync>(
    rt: &H,
    alloc: Global,
    formula: &Formula,
    plan: &Plan,
    sink: S,
    gate: &G,
    tally: Vec<Counts>,
    counts: Vec<Counts>,
) -> Solved<S>
    ghost given: { S }
    requires same { sink ≡ given }
    requires threads { (1 ≤ plan.now.threads) × (plan.now.threads ≤ 16) }
    requires conflicts { plan.now.conflicts ≤ 10 ^ 12 }
    requires words { plan.now.words ≤ 2 ^ 31 }
    requires slots { (1 ≤ plan.now.slots) × (plan.now.slots ≤ 16) }
    requires round { IfSome plan.now.round (λ every. 1 ≤ every) }
    requires few { formula.now.vars ≤ 2 ^ 30 }
    requires on { All (All (IsOn formula.now.vars)) formula.now.clauses }
    requires empty { IsEmptyWhereTold (S.written given) }
    requires none { (tally.items ≡ replicate plan.now.threads no_counts) × (counts.items ≡ replicate plan.now.threads no_counts) }
    requires plain { plan.now.additions ≡ true → has_hints plan.now.format ≡ false }
    ensures solved { IsSolved plan.now formula.now result.answer result.tally.items (S.faults given) (S.faults result.sink) (S.flushed result.sink) (S.written result.sink) (option_map (λ v. v.items) result.lines) }
    ensures target { S.target result.sink ≡ S.target given }
    ensures counted { result.answer ≢ answer.Memory → length result.tally.items ≡ plan.now.threads }
{
    let clauses = formula.clauses().len() as u64;
    let book = match Book::new(alloc, plan.format, clauses, sink, plan.keep_lines) {
        Ok(book) => book,
        Err(refused) => return starved(refused.value, tally, formula, plan),
    };
    let schedule = Schedule {
        rounds: plan.rounds,
        additions: plan.additions,
    };
    let (outcome, book) = simplify(alloc, formula, schedule, book);
    book.has_its_log();
    match outcome {
        Ok(Outcome::Simplified(left)) => {
            let paused = Paused {
                left,
                book,
                tally,
                counts,
                done: 0,
            };
            solve_left(rt, alloc, formula, plan, gate, paused)
        }
        Ok(Outcome::Refuted) => finish(book, Answer::Unsat, tally, formula, plan),
        Err(stop) => finish(book, answer_of_stop(stop), tally, formula, plan),
    }
}

/// Decides a formula: simplifies it in the plan's rounds, and searches what is left for a model with the plan's rings, each on
/// a thread of its own if threads can be made. All lines go to the sink, which comes back with each answer, flushed.
///
/// The first ring that finds a model, refutes the formula or is stopped for want of something decides; if none does, the
/// rings together have learned as many lemmas as a round may. Then the ruler goes on, and the rings after it, until they have learned
/// as many as the plan allows.
pub fn solve<S: Sink + Send, G: Gate + Sync, H: Threads + Wait + Sync>(
    rt: &H,
    alloc: Global,
    formula: &Formula,
    plan: &Plan,
    sink: S,
    gate: &G,
) -> Solved<S>
    requires threads { (1 ≤ plan.now.threads) × (plan.now.threads ≤ 16) }
    requires conflicts { plan.now.conflicts ≤ 10 ^ 12 }
    requires words { plan.now.words ≤ 2 ^ 31 }
    requires slots { (1 ≤ plan.now.slots) × (plan.now.slots ≤ 16) }
    requires round { IfSome plan.now.round (λ every. 1 ≤ every) }
    requires few { formula.now.vars ≤ 2 ^ 30 }
    requires on { All (All (IsOn formula.now.vars)) formula.now.clauses }
    requires empty { IsEmptyWhereTold (S.written sink) }
    requires plain { plan.now.additions ≡ true → has_hints plan.now.format ≡ false }
    ensures solved { IsSolved plan.now formula.now result.answer result.tally.items (S.faults sink) (S.faults result.sink) (S.flushed result.sink) (S.written result.sink) (option_map (λ v. v.items) result.lines) }
    ensures target { S.target result.sink ≡ S.target sink }
    ensures counted { result.answer ≢ answer.Memory → length result.tally.items ≡ plan.now.threads }
{
    let Ok(tally) = none_counted(alloc, plan.threads) else {
        return starved(sink, Vec::new(alloc), formula, plan);
    };
    let Ok(counts) = none_counted(alloc, plan.threads) else {
        return starved(sink, tally, formula, plan);
    };
    solve_counted(rt, alloc, formula, plan, sink, gate, tally, counts)
}
