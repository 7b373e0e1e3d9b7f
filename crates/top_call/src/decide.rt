// From a source, or the number of a formula, to a printed answer, after the proof was created.
ghost use Rattle.std.specs.Prelude.{◌≡◌, ◌≤◌, ◌<◌, ◌^◌, ◌↔◌, All, Bool, true, false, ℕ, List, IsTrue, Some, None, is_some, if◌then◌else◌, IfOk, IfSome, OnOk, OnErr, length};
ghost use Rattle.std.specs.Option.{option_map};
ghost use Rattle.std.specs.declared.option.Option.{Option};
ghost use Rattle.rup_model.specs.Log.{Accepted, Refutes};
ghost use Rattle.sat_words.specs.FormulaData.{FormulaData};
ghost use Rattle.io_edge.specs.Bytes.{GrowsBy, GrowsByPart};
ghost use Rattle.io_edge.specs.Causes.{HasCause};
ghost use Rattle.io_edge.specs.Paths.{IsEmptyWhereTold};
ghost use Rattle.top_call.specs.Answer.{answer_text, summary_of};
ghost use Rattle.top_call.specs.Ends.{end_of, end_of_read, status_of, prints_at};
ghost use Rattle.sat_words.specs.Literal.{IsOn};
ghost use Rattle.top_call.specs.Finished.{Finishes};
ghost use Rattle.top_call.specs.Occurring.{IsOccurring};
ghost use Rattle.top_call.specs.Outcome.{Concluded, IsRun, printed_of};
ghost use Rattle.top_call.specs.Run.{FailedLast, FaultCount, IsStill, faults_between, output_between, writer_at};
ghost use Rattle.dimacs_read.specs.Answer.{IsReadNoFurther};
ghost use Rattle.top_call.specs.Planned.{IsInRange};
ghost use Rattle.top_call.specs.Tallied.{no_tally, zero_tally};

use crate::answer::answer_text_to;
use crate::conclude::verdict_of;
use crate::occurring::occurring_in;
use crate::plan::CallPlan;
use crate::remarks::{Remarks, Summary, summary_of};
use crate::report::{CallEnd, SearchVerdict, Tally};
use cnf_make::make;
use dimacs_read::{ReadStop, read};
use drat_check::{Verdict, check};
use io_edge::{Failed, Sink, Source};
use portfolio_run::{Solved, solve};
use ring_port::Gate;
use sat_words::{Assignment, Formula, Line};
use std::alloc::{AllocError, Global};
use std::sync::Wait;
use std::thread::Threads;

/// How a run over a source ended, and the proof's writer, given back.
pub struct Decided<P> {
    pub end: CallEnd,
    pub proof: P,
}

fn into_end(verdict: SearchVerdict) -> CallEnd
    ensures { result ≡ end_of verdict }
{
    match verdict {
        SearchVerdict::Satisfiable(model) => CallEnd::Satisfiable(model),
        SearchVerdict::Unsatisfiable => CallEnd::Unsatisfiable,
        SearchVerdict::Unknown => CallEnd::Unknown,
    }
}

/// Prints the answer, and flushes it.
#[tactic(auto, using(io_edge::proofs::Growth::whole_part, io_edge::proofs::Growth::front_part))]
fn print<O: Sink>(
    out: &mut O,
    vars: u32,
    remarks: &Remarks,
    verdict: &SearchVerdict,
) -> Result<(), Failed>
    requires { vars ≤ 2 ^ 30 }
    ensures all { OnOk result (GrowsBy (O.written out.old) (O.written out.new) (answer_text vars remarks.now verdict.now)) }
    ensures sure { OnOk result (O.flushed out.new ≡ O.written out.new) }
    ensures part { OnErr result (GrowsByPart (O.written out.old) (O.written out.new) (answer_text vars remarks.now verdict.now)) }
    ensures cause { HasCause (O.faults out.old) (O.faults out.new) result }
{
    match answer_text_to(out, vars, remarks, verdict) {
        Ok(()) => out.flush(),
        Err(_) => Err(Failed),
    }
}

/// The remarks on the formula, if it was made.
fn told_of(plan: &CallPlan, formula: &Formula, verdict: &SearchVerdict) -> Option<Summary>
    ensures { result ≡ (if is_some plan.now.make then Some (summary_of formula.now verdict.now) else None) }
{
    match plan.make {
        Some(_) => Some(summary_of(formula, verdict)),
        None => None,
    }
}

/// Checks the lines of the log, which are accepted. Answers whether they end in the empty clause.
#[tactic(auto, using(crate::proofs::Checks::none_bad))]
fn check_log(alloc: Global, formula: &Formula, lines: &[Line]) -> Result<bool, AllocError>
    requires accepted { Accepted formula.now.clauses lines.now }
    ensures { IfOk result (λ refuted. IsTrue refuted ↔ Refutes formula.now.clauses lines.now) }
{
    match check(alloc, formula, lines)? {
        Verdict::Accepted { empty } => Ok(empty),
        // `accepted`: the check refuses only a log that the definition does not accept
        Verdict::Refused { .. } => unreachable!(),
    }
}

/// Checks the log if its lines were kept, and answers whether they were.
fn check_kept(
    alloc: Global,
    formula: &Formula,
    kept: &Option<Vec<Line>>,
) -> Result<bool, AllocError>
    requires accepted { IfSome (option_map (λ v. v.items) kept.now) (Accepted formula.now.clauses) }
    ensures kept { IfOk result (λ checked. checked ≡ is_some kept.now) }
    ensures asked { OnErr result (is_some kept.now ≡ true) }
{
    match kept {
        Some(lines) => {
            let _refuted = check_log(alloc, formula, lines.as_slice())?;
            Ok(true)
        }
        None => Ok(false),
    }
}

/// Checks the log if its lines were kept, and prints the verdict. Only the check takes memory.
fn finish<O: Sink>(
    alloc: Global,
    formula: &Formula,
    plan: &CallPlan,
    verdict: SearchVerdict,
    kept: &Option<Vec<Line>>,
    out: &mut O,
) -> CallEnd
    requires few { formula.now.vars < 2 ^ 28 }
    requires kept { is_some kept.now ≡ plan.now.search.keep_lines }
    requires accepted { IfSome (option_map (λ v. v.items) kept.now) (Accepted formula.now.clauses) }
    ensures finishes { Finishes (printed_of plan.now formula.now verdict) plan.now.search.keep_lines verdict result
        (output_between O.faults O.written O.flushed out.old out.new) }
    ensures unprinted { prints_at (status_of result) ≡ false → out.new ≡ out.old }
{
    let Ok(checked) = check_kept(alloc, formula, kept) else {
        return CallEnd::Memory;
    };
    let made = told_of(plan, formula, &verdict);
    match print(out, formula.vars(), &Remarks { made, checked }, &verdict) {
        Ok(()) => into_end(verdict),
        Err(Failed) => CallEnd::WriteFault,
    }
}

/// Searches, with the proof written and flushed, and prints the answer.
fn search_formula<H: Threads + Wait + Sync, P: Sink + Send, O: Sink, G: Gate + Sync>(
    rt: &H,
    alloc: Global,
    formula: &Formula,
    occurring: Assignment,
    plan: &CallPlan,
    proof: P,
    out: &mut O,
    tally: &mut Tally,
    gate: &G,
) -> Decided<P>
    requires ranges { IsInRange plan.now.search }
    requires few { formula.now.vars < 2 ^ 28 }
    requires on_variables { All (All (IsOn formula.now.vars)) formula.now.clauses }
    requires occurring { IsOccurring formula.now.clauses formula.now.vars occurring }
    requires empty { IsEmptyWhereTold (P.written proof) }
    requires quiet { P.faults proof ≡ 0 }
    requires started { tally.old ≡ zero_tally plan.now.search.threads }
    ensures outcome { Concluded plan.now formula.now result.end tally.new
        (writer_at P.faults P.written P.flushed result.proof)
        (output_between O.faults O.written O.flushed out.old out.new) }
    ensures target { P.target result.proof ≡ P.target proof }
    ensures unprinted { prints_at (status_of result.end) ≡ false → out.new ≡ out.old }
{
    let Solved {
        answer,
        sink,
        lines,
        tally: counts,
    } = solve(rt, alloc, formula, &plan.search, proof, gate);
    tally.count(counts.as_slice());
    match verdict_of(occurring, formula.vars(), answer) {
        Ok(verdict) => Decided {
            end: finish(alloc, formula, plan, verdict, &lines, out),
            proof: sink,
        },
        Err(end) => {
            tally.note(&end);
            Decided { end, proof: sink }
        }
    }
}

/// Takes the memory of the answer and of the report, searches, with the proof written and flushed, and prints the answer.
fn decide_formula<H: Threads + Wait + Sync, P: Sink + Send, O: Sink, G: Gate + Sync>(
    rt: &H,
    alloc: Global,
    formula: &Formula,
    plan: &CallPlan,
    proof: P,
    out: &mut O,
    tally: &mut Tally,
    gate: &G,
) -> Decided<P>
    requires ranges { IsInRange plan.now.search }
    requires few { formula.now.vars < 2 ^ 28 }
    requires on_variables { All (All (IsOn formula.now.vars)) formula.now.clauses }
    requires empty { IsEmptyWhereTold (P.written proof) }
    requires quiet { P.faults proof ≡ 0 }
    requires uncounted { tally.old ≡ no_tally }
    ensures outcome { Concluded plan.now formula.now result.end tally.new
        (writer_at P.faults P.written P.flushed result.proof)
        (output_between O.faults O.written O.flushed out.old out.new) }
    ensures target { P.target result.proof ≡ P.target proof }
    ensures unprinted { prints_at (status_of result.end) ≡ false → out.new ≡ out.old }
{
    let Ok(occurring) = occurring_in(alloc, formula.clauses(), formula.vars()) else {
        let mut proof = proof;
        let _ = proof.flush();
        return Decided {
            end: CallEnd::Memory,
            proof,
        };
    };
    match Tally::with_rings(alloc, plan.search.threads) {
        Ok(started) => *tally = started,
        Err(_) => {
            let mut proof = proof;
            let _ = proof.flush();
            return Decided {
                end: CallEnd::Memory,
                proof,
            };
        }
    }
    search_formula(rt, alloc, formula, occurring, plan, proof, out, tally, gate)
}

/// How a call ends whose input was not read.
fn read_end(stop: ReadStop) -> CallEnd
    ensures { result ≡ end_of_read stop }
{
    match stop {
        ReadStop::Bad { code, line } => CallEnd::BadInput { code, line },
        ReadStop::ReadFault => CallEnd::ReadFault,
        ReadStop::Memory => CallEnd::Memory,
    }
}

/// Reads the source, searches, with the proof written and flushed, and prints the answer.
pub fn decide_over<H: Threads + Wait + Sync, S: Source, P: Sink + Send, O: Sink, G: Gate + Sync>(
    rt: &H,
    alloc: Global,
    source: &mut S,
    plan: &CallPlan,
    proof: P,
    out: &mut O,
    tally: &mut Tally,
    gate: &G,
) -> Decided<P>
    requires ranges { IsInRange plan.now.search }
    requires empty { IsEmptyWhereTold (P.written proof) }
    requires quiet { P.faults proof ≡ 0 }
    requires uncounted { tally.old ≡ no_tally }
    requires unmade { plan.now.make ≡ None }
    ensures outcome { IsRun result.end tally.new (record {
      plan = plan.now;
      text = S.left source.old;
      source = faults_between S.faults source.old source.new;
      proof = Some (writer_at P.faults P.written P.flushed result.proof);
      out = output_between O.faults O.written O.flushed out.old out.new;
    }) }
    ensures rest { IsReadNoFurther (S.left source.old) (S.left source.new) }
    ensures failed { status_of result.end ≡ 5 → FailedLast S.left S.failed S.faults source.old source.new }
    ensures target { P.target result.proof ≡ P.target proof }
    ensures unprinted { prints_at (status_of result.end) ≡ false → out.new ≡ out.old }
{
    let mut proof = proof;
    let formula = match read(alloc, source) {
        Ok(formula) => formula,
        Err(stop) => {
            let _ = proof.flush();
            let end = read_end(stop);
            tally.note(&end);
            return Decided { end, proof };
        }
    };
    decide_formula(rt, alloc, &formula, plan, proof, out, tally, gate)
}

/// Makes the formula of the number, searches, with the proof written and flushed, and prints the answer.
pub fn decide_made<H: Threads + Wait + Sync, P: Sink + Send, O: Sink, G: Gate + Sync>(
    rt: &H,
    alloc: Global,
    number: u64,
    plan: &CallPlan,
    proof: P,
    out: &mut O,
    tally: &mut Tally,
    gate: &G,
) -> Decided<P>
    requires ranges { IsInRange plan.now.search }
    requires empty { IsEmptyWhereTold (P.written proof) }
    requires quiet { P.faults proof ≡ 0 }
    requires uncounted { tally.old ≡ no_tally }
    requires made { plan.now.make ≡ Some number }
    ensures outcome { (text : Option (List ℕ)) (source : FaultCount) → IsStill source → IsRun result.end tally.new (record {
      plan = plan.now;
      text = text;
      source = source;
      proof = Some (writer_at P.faults P.written P.flushed result.proof);
      out = output_between O.faults O.written O.flushed out.old out.new;
    }) }
    ensures target { P.target result.proof ≡ P.target proof }
    ensures unprinted { prints_at (status_of result.end) ≡ false → out.new ≡ out.old }
{
    let mut proof = proof;
    let Ok(formula) = make(alloc, number) else {
        let _ = proof.flush();
        return Decided {
            end: CallEnd::Memory,
            proof,
        };
    };
    decide_formula(rt, alloc, &formula, plan, proof, out, tally, gate)
}
