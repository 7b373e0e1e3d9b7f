// The rounds of the rings: each begins where the rings rest, and ends the run or leaves the rings at rest again.
ghost use Rattle.std.specs.Prelude.{◌≡◌, ◌<◌, ◌≤◌, ◌^◌, ◌↔◌, ℕ, true, false, All, List, length, replicate, IfOk, IfErr, IfSome};
ghost use Rattle.io_edge.specs.Paths.{IsEmptyWhereTold};
ghost use Rattle.sat_words.specs.Formats.{has_hints};
ghost use Rattle.sat_words.specs.Literal.{IsOn};
ghost use Rattle.rup_model.specs.declared.journal.Entry.{Entry};
ghost use Rattle.core_rounds.specs.InRounds.{round_limit};
ghost use Rattle.ring_run.specs.declared.job.Counts.{Counts as CountsData};
ghost use Rattle.portfolio_run.specs.Held.{no_counts};
ghost use Rattle.portfolio_run.specs.Pauses.{Pause, IsPaused, IsPausedAt};
ghost use Rattle.portfolio_run.specs.Reached.{HasReached, pause_of, unread_answer};
ghost use Rattle.portfolio_run.specs.Tables.{IsOpened, WasSpent};
ghost use Rattle.portfolio_run.specs.declared.answer.Answer.TheVariants as answer;

use crate::answer::Answer;
use crate::counts::add_counts;
use crate::noted::Noted;
use crate::plan::Plan;
use crate::rests::resume;
use crate::search::search;
use crate::tables::{Opened, Unopened, answer_of_stop, open_table};
use io_edge::Sink;
use log_book::Book;
use model_stack::Stack;
use ring_port::Gate;
use ring_run::Counts;
use ruler_simp::{Outcome, Simplified};
use sat_words::Formula;
use share_rule::{ClosedTable, Ledger, Pass, Shared, close, close_round};
use std::alloc::Global;
use std::sync::Wait;
use std::thread::Threads;

/// The rings at rest, before a round.
#[derive(Drop)]
pub(crate) struct Paused<S: Sink> {
    /// What the ruler left.
    pub(crate) left: Simplified,
    /// The book of the log.
    pub(crate) book: Book<S>,
    /// What each ring counted in all rounds so far.
    pub(crate) tally: Vec<Counts>,
    /// Room for what each ring counts in the next round.
    pub(crate) counts: Vec<Counts>,
    /// How many lemmas the rings learned together so far.
    pub(crate) done: u64,
}

/// The answer of a run, with what the proof is finished with.
#[derive(Drop)]
pub(crate) struct Ended<S: Sink> {
    /// The answer.
    pub(crate) answer: Answer,
    /// The book of the log.
    pub(crate) book: Book<S>,
    /// What each ring counted in all rounds.
    pub(crate) tally: Vec<Counts>,
}

/// How many lemmas the next round may learn after so many: what is left of all, and no more than a round may.
fn limit_of(plan: &Plan, done: u64) -> u64
    requires { done ≤ plan.now.conflicts }
    ensures { result ≡ round_limit plan.now.round plan.now.conflicts done }
{
    let left = plan.conflicts - done;
    match plan.round {
        None => left,
        Some(every) => every.min(left),
    }
}

/// All rings were spent, and lemmas are left to learn after so many.
fn is_passed(found: &Answer, done: u64, plan: &Plan) -> bool
    ensures { (result ≡ true) ↔ ((found.now ≡ answer.Unknown) × (done < plan.now.conflicts)) }
{
    matches!(found, Answer::Unknown) && done < plan.conflicts
}

/// The answer if memory ran out as what a round's table held was read: a line that failed before is told first.
fn unread_answer<S: Sink>(book: &Book<S>) -> Answer
    ensures { result ≡ unread_answer book.now.log.lines.spent }
{
    if book.is_broken() {
        return Answer::ProofFault;
    }
    Answer::Memory
}

/// Takes the table of a spent round apart, and lets the ruler go on with what it held: the rings rest again, or the run ends.
fn pause<S: Sink>(
    alloc: Global,
    formula: &Formula,
    plan: &Plan,
    vars: u32,
    stack: Stack,
    table: Shared<Book<S>>,
    first: Pass<Book<S>>,
    tally: Vec<Counts>,
    counts: Vec<Counts>,
    done: u64,
) -> Result<Paused<S>, Ended<S>>
    ghost known: { S }
    requires threads { (1 ≤ plan.now.threads) × (plan.now.threads ≤ 16) }
    requires conflicts { plan.now.conflicts ≤ 10 ^ 12 }
    requires few { formula.now.vars ≤ 2 ^ 30 }
    requires on { All (All (IsOn formula.now.vars)) formula.now.clauses }
    requires empty { IsEmptyWhereTold (S.written known) }
    requires spent { WasSpent S.written S.flushed S.target S.faults known plan.now formula.now vars stack tally.items done table first }
    requires more { done < plan.now.conflicts }
    requires none { counts.items ≡ replicate plan.now.threads no_counts }
    requires plain { plan.now.additions ≡ true → has_hints plan.now.format ≡ false }
    ensures paused { IfOk result (λ q. IsPaused (pause_of S.written S.flushed S.target S.faults known plan.now formula.now q.left q.tally.items q.done q.book)) }
    ensures same { IfOk result (λ q. (q.done ≡ done) × (q.counts.items ≡ counts.items)) }
    ensures over { IfErr result (λ e. HasReached S.written S.flushed S.target S.faults known plan.now formula.now e.answer e.tally.items e.book) }
    ensures counted { IfErr result (λ e. e.tally.items ≡ tally.items) }
{
    let ClosedTable { book, rests, units } = match close_round(alloc, table, first) {
        Ok(closed) => closed,
        Err(refused) => {
            let book = refused.value;
            return Err(Ended {
                answer: unread_answer(&book),
                book,
                tally,
            });
        }
    };
    if book.is_broken() {
        return Err(Ended {
            answer: Answer::ProofFault,
            book,
            tally,
        });
    }
    let (outcome, book) = resume(alloc, formula, plan, vars, rests, units, stack, book);
    book.has_its_log();
    match outcome {
        Ok(Outcome::Simplified(left)) => Ok(Paused {
            left,
            book,
            tally,
            counts,
            done,
        }),
        Ok(Outcome::Refuted) => Err(Ended {
            answer: Answer::Unsat,
            book,
            tally,
        }),
        Err(stop) => Err(Ended {
            answer: answer_of_stop(stop),
            book,
            tally,
        }),
    }
}

/// Runs the rings over the table of a round. If all are spent and lemmas are left the rings rest again; else the run ends.
fn run_table<S: Sink + Send, G: Gate + Sync, H: Threads + Wait + Sync>(
    rt: &H,
    alloc: Global,
    formula: &Formula,
    plan: &Plan,
    gate: &G,
    limit: u64,
    left: Simplified,
    opened: Opened<S>,
    tally: Vec<Counts>,
    counts: Vec<Counts>,
    done: u64,
) -> Result<Paused<S>, Ended<S>>
    ghost known: { S }
    requires threads { (1 ≤ plan.now.threads) × (plan.now.threads ≤ 16) }
    requires conflicts { plan.now.conflicts ≤ 10 ^ 12 }
    requires round { IfSome plan.now.round (λ every. 1 ≤ every) }
    requires few { formula.now.vars ≤ 2 ^ 30 }
    requires on { All (All (IsOn formula.now.vars)) formula.now.clauses }
    requires empty { IsEmptyWhereTold (S.written known) }
    requires opened { IsOpened S.written S.flushed S.target S.faults known plan.now formula.now left tally.items done limit opened.0 opened.1 opened.2.items }
    requires none { counts.items ≡ replicate plan.now.threads no_counts }
    requires plain { plan.now.additions ≡ true → has_hints plan.now.format ≡ false }
    ensures paused { IfOk result (λ q. IsPaused (pause_of S.written S.flushed S.target S.faults known plan.now formula.now q.left q.tally.items q.done q.book)) }
    ensures none { IfOk result (λ q. q.counts.items ≡ replicate plan.now.threads no_counts) }
    ensures more { IfOk result (λ q. (done < q.done) × (q.done ≤ plan.now.conflicts)) }
    ensures over { IfErr result (λ e. HasReached S.written S.flushed S.target S.faults known plan.now formula.now e.answer e.tally.items e.book) }
    ensures counted { IfErr result (λ e. length e.tally.items ≡ plan.now.threads) }
{
    let (table, first, cells) = opened;
    let Simplified { vars, stack, .. } = left;
    let mut first = first;
    let mut tally = tally;
    let mut counts = counts;
    let answer = search(
        rt,
        alloc,
        &table,
        &mut first,
        gate,
        cells.as_slice(),
        plan,
        formula,
        &stack,
        &mut counts,
    );
    add_counts(&mut tally, &mut counts);
    let done = done + limit;
    if !is_passed(&answer, done, plan) {
        return Err(Ended {
            answer,
            book: close(table, first),
            tally,
        });
    }
    pause(
        alloc, formula, plan, vars, stack, table, first, tally, counts, done,
    )
}

/// Runs a round after the journal that is there where the rings rest.
fn run_noted<S: Sink + Send, G: Gate + Sync, H: Threads + Wait + Sync>(
    rt: &H,
    alloc: Global,
    formula: &Formula,
    plan: &Plan,
    gate: &G,
    paused: Paused<S>,
    _journal: &Noted,
) -> Result<Paused<S>, Ended<S>>
    ghost known: { S × List CountsData × ℕ × List Entry }
    requires threads { (1 ≤ plan.now.threads) × (plan.now.threads ≤ 16) }
    requires conflicts { plan.now.conflicts ≤ 10 ^ 12 }
    requires words { plan.now.words ≤ 2 ^ 31 }
    requires slots { (1 ≤ plan.now.slots) × (plan.now.slots ≤ 16) }
    requires round { IfSome plan.now.round (λ every. 1 ≤ every) }
    requires few { formula.now.vars ≤ 2 ^ 30 }
    requires on { All (All (IsOn formula.now.vars)) formula.now.clauses }
    requires empty { IsEmptyWhereTold (S.written known.0) }
    requires paused { IsPausedAt (pause_of S.written S.flushed S.target S.faults known.0 plan.now formula.now paused.left paused.tally.items paused.done paused.book) known.3 }
    requires same { (paused.tally.items ≡ known.1) × (paused.done ≡ known.2) }
    requires none { paused.counts.items ≡ replicate plan.now.threads no_counts }
    requires plain { plan.now.additions ≡ true → has_hints plan.now.format ≡ false }
    ensures paused { IfOk result (λ q. IsPaused (pause_of S.written S.flushed S.target S.faults known.0 plan.now formula.now q.left q.tally.items q.done q.book)) }
    ensures none { IfOk result (λ q. q.counts.items ≡ replicate plan.now.threads no_counts) }
    ensures more { IfOk result (λ q. (paused.done < q.done) × (q.done ≤ plan.now.conflicts)) }
    ensures over { IfErr result (λ e. HasReached S.written S.flushed S.target S.faults known.0 plan.now formula.now e.answer e.tally.items e.book) }
    ensures counted { IfErr result (λ e. length e.tally.items ≡ plan.now.threads) }
{
    let Paused {
        left,
        book,
        tally,
        counts,
        done,
    } = paused;
    let limit = limit_of(plan, done);
    match open_table(alloc, formula, plan, limit, &left, book) {
        Ok(opened) => run_table(
            rt, alloc, formula, plan, gate, limit, left, opened, tally, counts, done,
        ),
        Err(Unopened { answer, book }) => Err(Ended {
            answer,
            book,
            tally,
        }),
    }
}

/// Runs a round of the rings: after it they rest again, and the ruler has gone on, or the run has ended. A round after which
/// they rest again has learned lemmas, and lemmas are left.
pub(crate) fn run_round<S: Sink + Send, G: Gate + Sync, H: Threads + Wait + Sync>(
    rt: &H,
    alloc: Global,
    formula: &Formula,
    plan: &Plan,
    gate: &G,
    paused: Paused<S>,
) -> Result<Paused<S>, Ended<S>>
    ghost known: { S × Pause }
    requires threads { (1 ≤ plan.now.threads) × (plan.now.threads ≤ 16) }
    requires conflicts { plan.now.conflicts ≤ 10 ^ 12 }
    requires words { plan.now.words ≤ 2 ^ 31 }
    requires slots { (1 ≤ plan.now.slots) × (plan.now.slots ≤ 16) }
    requires round { IfSome plan.now.round (λ every. 1 ≤ every) }
    requires few { formula.now.vars ≤ 2 ^ 30 }
    requires on { All (All (IsOn formula.now.vars)) formula.now.clauses }
    requires empty { IsEmptyWhereTold (S.written known.0) }
    requires paused { IsPaused (pause_of S.written S.flushed S.target S.faults known.0 plan.now formula.now paused.left paused.tally.items paused.done paused.book) }
    requires is { known.1 ≡ pause_of S.written S.flushed S.target S.faults known.0 plan.now formula.now paused.left paused.tally.items paused.done paused.book }
    requires none { paused.counts.items ≡ replicate plan.now.threads no_counts }
    requires plain { plan.now.additions ≡ true → has_hints plan.now.format ≡ false }
    ensures paused { IfOk result (λ q. IsPaused (pause_of S.written S.flushed S.target S.faults known.0 plan.now formula.now q.left q.tally.items q.done q.book)) }
    ensures none { IfOk result (λ q. q.counts.items ≡ replicate plan.now.threads no_counts) }
    ensures more { IfOk result (λ q. (paused.done < q.done) × (q.done ≤ plan.now.conflicts)) }
    ensures over { IfErr result (λ e. HasReached S.written S.flushed S.target S.faults known.0 plan.now formula.now e.answer e.tally.items e.book) }
    ensures counted { IfErr result (λ e. length e.tally.items ≡ plan.now.threads) }
{
    let journal = Noted::of_pause();
    run_noted(rt, alloc, formula, plan, gate, paused, &journal)
}
