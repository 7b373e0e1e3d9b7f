// The top call.
ghost use Rattle.std.specs.Prelude.{◌≡◌, ◌≢◌, ◌≤◌, ◌⊎◌, Bool, true, false, ℕ, Some, None, map, string_bytes, option_copied, option_map, option_and_then, is_some, IfOk, OnOk, OnErr, IfSome, IsSome, IsSomeAnd};
ghost use Rattle.io_edge.specs.Causes.{HasCause};
ghost use Rattle.io_edge.specs.Paths.{IsEmptyWhereTold, IsThere};
ghost use Rattle.top_call.specs.Words.{asked_by, command_of, file_path, make_number, proof_path};
ghost use Rattle.top_call.specs.Planned.{plan_of, search_of, IsInRange};
ghost use Rattle.dimacs_read.specs.Answer.{IsReadNoFurther};
ghost use Rattle.top_call.specs.Run.{FailedLast, HasFailedLast, FileFailedLast, opened_once, created_once, target_in, text_left, source_in, writer_of, faults_between, output_between, IsOpened, IsFileRead};
ghost use Rattle.top_call.specs.Outcome.{IsCall, IsRun};
ghost use Rattle.top_call.specs.Tallied.{no_tally};
ghost use Rattle.top_call.specs.Ends.{status_of, model_of, prints_at, leaves_input_at, leaves_files_at};
ghost use Rattle.top_call.specs.Statuses.{Statuses};
ghost use Rattle.top_call.specs.Promise.{Promise};

use crate::decide::{Decided, decide_made, decide_over};
use crate::message::put_message;
use crate::plan::{CallPlan, format_of, rounds_of};
use crate::report::{CallEnd, Report, Tally};
use crate::words::{Command, parse};
use dimacs_read::read_or_bad;
use io_edge::{Failed, Files, Sink, Source};
use ring_port::Gate;
use std::alloc::Global;
use std::sync::Wait;
use std::thread::Threads;

// How a call ended, with the reader of the file that it opened and the writer of the proof that it created.
struct EndedCall<R, W> {
    end: CallEnd,
    file: Option<R>,
    proof: Option<W>,
    tally: Tally,
}

/// Opens the input if a path is given for it.
fn open<F: Files>(files: &mut F, path: Option<&str>) -> Result<Option<F::Reader>, Failed>
    ensures opened { IfOk result (λ file. IsOpened F.Reader.left F.Reader.faults (F.contents files.old) (option_copied path.entry) file) }
    ensures there { OnOk result (IfSome (option_copied path.entry) (IsThere (F.contents files.old))) }
    ensures contents { F.contents files.new ≡ F.contents files.old }
    ensures tried { F.tried files.new ≡ opened_once (option_copied path.entry) (F.tried files.old) }
    ensures cause { HasCause (F.faults files.old) (F.faults files.new) result }
    ensures asked { OnErr result (IsSome (option_copied path.entry)) }
{
    match path {
        None => Ok(None),
        Some(path) => match files.open_input(path) {
            Ok(reader) => Ok(Some(reader)),
            Err(Failed) => Err(Failed),
        },
    }
}

/// Creates the proof if a path is given for it, else a writer that leads nowhere.
fn create<F: Files>(files: &mut F, path: Option<&str>) -> Result<F::Writer, Failed>
    ensures written { IfOk result (λ writer. IsEmptyWhereTold (F.Writer.written writer)) }
    ensures fresh { IfOk result (λ writer. F.Writer.faults writer ≡ 0) }
    ensures target { IfOk result (λ writer. F.Writer.target writer ≡ target_in (F.contents files.old) (option_copied path.entry)) }
    ensures contents { F.contents files.new ≡ F.contents files.old }
    ensures tried { F.tried files.new ≡ created_once (option_copied path.entry) (F.tried files.old) }
    ensures cause { HasCause (F.faults files.old) (F.faults files.new) result }
    ensures asked { OnErr result (IsSome (option_copied path.entry)) }
{
    match path {
        None => Ok(files.nowhere()),
        Some(path) => files.create_output(path),
    }
}

/// Decides the formula of the file, or of standard input if there is no file.
#[tactic(auto, using(dimacs_read::proofs::Taken::unread))]
fn decide_read<
    H: Threads + Wait + Sync,
    R: Source,
    I: Source,
    W: Sink + Send,
    O: Sink,
    G: Gate + Sync,
>(
    rt: &H,
    alloc: Global,
    file: Option<R>,
    input: &mut I,
    plan: &CallPlan,
    proof: W,
    out: &mut O,
    tally: Tally,
    gate: &G,
) -> EndedCall<R, W>
    requires ranges { IsInRange plan.now.search }
    requires unmade { plan.now.make ≡ None }
    requires fresh { IfSome file (λ reader. R.faults reader ≡ 0) }
    requires empty { IsEmptyWhereTold (W.written proof) }
    requires quiet { W.faults proof ≡ 0 }
    requires uncounted { tally ≡ no_tally }
    ensures outcome { IsRun result.end result.tally (record {
      plan = plan.now;
      text = text_left R.left file (I.left input.old);
      source = source_in (faults_between I.faults input.old input.new) (option_map R.faults result.file);
      proof = writer_of W.faults W.written W.flushed result.proof;
      out = output_between O.faults O.written O.flushed out.old out.new;
    }) }
    ensures file { is_some result.file ≡ is_some file }
    ensures proof { is_some result.proof ≡ true }
    ensures target { IfSome result.proof (λ writer. W.target writer ≡ W.target proof) }
    ensures unprinted { prints_at (status_of result.end) ≡ false → out.new ≡ out.old }
    ensures unread { is_some file ≡ true → input.new ≡ input.old }
    ensures input_rest { IsReadNoFurther (I.left input.old) (I.left input.new) }
    ensures file_rest { IfSome result.file (λ reader. IsReadNoFurther (text_left R.left file (I.left input.old)) (R.left reader)) }
    ensures input_failed { status_of result.end ≡ 5 → result.file ≡ None → FailedLast I.left I.failed I.faults input.old input.new }
    ensures file_failed { status_of result.end ≡ 5 → IfSome result.file (HasFailedLast R.left R.failed R.faults (text_left R.left file (I.left input.old))) }
    ensures ends { leaves_input_at (status_of result.end) ≡ false }
    ensures opened { leaves_files_at (status_of result.end) true ≡ false }
{
    let mut tally = tally;
    match file {
        Some(reader) => {
            let mut reader = reader;
            let Decided { end, proof } = decide_over(
                rt,
                alloc,
                &mut reader,
                plan,
                proof,
                out,
                &mut tally,
                gate,
            );
            EndedCall {
                end,
                file: Some(reader),
                proof: Some(proof),
                tally,
            }
        }
        None => {
            let Decided { end, proof } = decide_over(
                rt, alloc, input, plan, proof, out, &mut tally, gate,
            );
            EndedCall {
                end,
                file: None,
                proof: Some(proof),
                tally,
            }
        }
    }
}

/// Decides the formula that is made, or that of the file, or of standard input if there is no file.
#[tactic(auto, using(dimacs_read::proofs::Taken::unread))]
fn decide<H: Threads + Wait + Sync, R: Source, I: Source, W: Sink + Send, O: Sink, G: Gate + Sync>(
    rt: &H,
    alloc: Global,
    file: Option<R>,
    input: &mut I,
    plan: &CallPlan,
    proof: W,
    out: &mut O,
    tally: Tally,
    gate: &G,
) -> EndedCall<R, W>
    requires ranges { IsInRange plan.now.search }
    requires fresh { IfSome file (λ reader. R.faults reader ≡ 0) }
    requires empty { IsEmptyWhereTold (W.written proof) }
    requires quiet { W.faults proof ≡ 0 }
    requires uncounted { tally ≡ no_tally }
    ensures outcome { IsRun result.end result.tally (record {
      plan = plan.now;
      text = text_left R.left file (I.left input.old);
      source = source_in (faults_between I.faults input.old input.new) (option_map R.faults result.file);
      proof = writer_of W.faults W.written W.flushed result.proof;
      out = output_between O.faults O.written O.flushed out.old out.new;
    }) }
    ensures file { is_some result.file ≡ is_some file }
    ensures proof { is_some result.proof ≡ true }
    ensures target { IfSome result.proof (λ writer. W.target writer ≡ W.target proof) }
    ensures unprinted { prints_at (status_of result.end) ≡ false → out.new ≡ out.old }
    ensures unread { is_some file ≡ true → input.new ≡ input.old }
    ensures made { is_some plan.now.make ≡ true → input.new ≡ input.old }
    ensures input_rest { IsReadNoFurther (I.left input.old) (I.left input.new) }
    ensures file_rest { IfSome result.file (λ reader. IsReadNoFurther (text_left R.left file (I.left input.old)) (R.left reader)) }
    ensures input_failed { status_of result.end ≡ 5 → result.file ≡ None → FailedLast I.left I.failed I.faults input.old input.new }
    ensures file_failed { status_of result.end ≡ 5 → IfSome result.file (HasFailedLast R.left R.failed R.faults (text_left R.left file (I.left input.old))) }
    ensures ends { leaves_input_at (status_of result.end) ≡ false }
    ensures opened { leaves_files_at (status_of result.end) true ≡ false }
{
    match plan.make {
        None => decide_read(rt, alloc, file, input, plan, proof, out, tally, gate),
        Some(number) => {
            let mut tally = tally;
            let Decided { end, proof } = decide_made(
                rt, alloc, number, plan, proof, out, &mut tally, gate,
            );
            EndedCall {
                end,
                file,
                proof: Some(proof),
                tally,
            }
        }
    }
}

/// How the arguments ask that a formula is decided.
fn plan_in(command: &Command<'_>) -> CallPlan
    ensures { result ≡ record { search = search_of (asked_by command.now); make = command.now.make } }
{
    let search = portfolio_run::Plan {
        threads: command.threads,
        conflicts: command.conflicts,
        round: command.round,
        words: command.words,
        slots: command.slots,
        seed: command.seed,
        walk: command.walk,
        rounds: rounds_of(command.no_simplify),
        additions: command.add,
        format: format_of(command.lrat, command.binary),
        keep_lines: command.check,
    };
    CallPlan {
        search,
        make: command.make,
    }
}

#[tactic(auto, using(dimacs_read::proofs::Taken::unread))]
fn run<H: Threads + Wait + Sync, F: Files, I: Source, O: Sink, G: Gate + Sync>(
    rt: &H,
    alloc: Global,
    words: &[String],
    files: &mut F,
    input: &mut I,
    out: &mut O,
    gate: &G,
) -> EndedCall<F::Reader, F::Writer>
    ensures outcome { IsCall result.end result.tally (record {
      words = map string_bytes words.now;
      contents = F.contents files.old;
      files = faults_between F.faults files.old files.new;
      left = I.left input.old;
      input = faults_between I.faults input.old input.new;
      file = option_map F.Reader.faults result.file;
      proof = writer_of F.Writer.faults F.Writer.written F.Writer.flushed result.proof;
      out = output_between O.faults O.written O.flushed out.old out.new;
    }) }
    ensures target { IfSome result.proof (λ writer. F.Writer.target writer ≡ target_in (F.contents files.old) (proof_path (command_of (map string_bytes words.now)))) }
    ensures unprinted { prints_at (status_of result.end) ≡ false → out.new ≡ out.old }
    ensures unread { leaves_input_at (status_of result.end) ≡ true → input.new ≡ input.old }
    ensures idle { result.proof ≡ None → input.new ≡ input.old }
    ensures file_alone { is_some (file_path (command_of (map string_bytes words.now))) ≡ true → input.new ≡ input.old }
    ensures made_alone { is_some (make_number (command_of (map string_bytes words.now))) ≡ true → input.new ≡ input.old }
    ensures input_rest { IsReadNoFurther (I.left input.old) (I.left input.new) }
    ensures file_rest { IsFileRead F.Reader.left (F.contents files.old) (file_path (command_of (map string_bytes words.now))) result.file }
    ensures input_failed { status_of result.end ≡ 5 → result.file ≡ None → FailedLast I.left I.failed I.faults input.old input.new }
    ensures file_failed { status_of result.end ≡ 5 → FileFailedLast F.Reader.left F.Reader.failed F.Reader.faults (F.contents files.old) (file_path (command_of (map string_bytes words.now))) result.file }
    ensures file_unread { status_of result.end ≡ 4 → IsOpened F.Reader.left F.Reader.faults (F.contents files.old) (file_path (command_of (map string_bytes words.now))) result.file }
    ensures contents { F.contents files.new ≡ F.contents files.old }
    ensures unopened { leaves_files_at (status_of result.end) (is_some result.proof) ≡ true → files.new ≡ files.old }
    ensures uncreated { status_of result.end ≡ 3 → F.tried files.new ≡ opened_once (file_path (command_of (map string_bytes words.now))) (F.tried files.old) }
    ensures tried { leaves_files_at (status_of result.end) (is_some result.proof) ≡ false → status_of result.end ≢ 3 → F.tried files.new ≡ created_once (proof_path (command_of (map string_bytes words.now))) (opened_once (file_path (command_of (map string_bytes words.now))) (F.tried files.old)) }
{
    let tally = Tally::new(alloc);
    let command = match parse(alloc, words) {
        Ok(command) => command,
        Err(end) => {
            return EndedCall {
                end,
                file: None,
                proof: None,
                tally,
            };
        }
    };
    let file = match open(files, command.file) {
        Ok(file) => file,
        Err(Failed) => {
            return EndedCall {
                end: CallEnd::CannotOpen,
                file: None,
                proof: None,
                tally,
            };
        }
    };
    match create(files, command.proof) {
        Ok(proof) => decide(
            rt,
            alloc,
            file,
            input,
            &plan_in(&command),
            proof,
            out,
            tally,
            gate,
        ),
        Err(Failed) => EndedCall {
            end: CallEnd::CannotCreate,
            file,
            proof: None,
            tally,
        },
    }
}

fn report_of<R, W>(ended: EndedCall<R, W>) -> Report<R, W>
    ensures status { result.status ≡ status_of ended.end }
    ensures model { result.model ≡ model_of ended.end }
    ensures file { result.file ≡ ended.file }
    ensures proof { result.proof ≡ ended.proof }
    ensures tally { result.tally ≡ ended.tally }
{
    let EndedCall {
        end,
        file,
        proof,
        tally,
    } = ended;
    let status = end.status();
    let model = match end {
        CallEnd::Satisfiable(model) => Some(model),
        _ => None,
    };
    Report {
        status,
        model,
        file,
        proof,
        tally,
    }
}

/// All that the program does: reads the arguments and the input, searches, writes the proof and the answer, and reports. The
/// rings search on threads of their own, and pass the gate now and then. A ring waits for its turn at the log, so the clauses
/// hold if the call returns.
///
/// `words` are the arguments without the program's name. The input is FILE if it is given. Standard input is left alone then,
/// and if the formula is made. A fault of `err` changes nothing. The first refusal that is met decides, and nothing after it
/// is begun, except that a proof that was created is always flushed.
///
/// `promise` is the short form of what the answers 10 and 20 mean. `headline` says it of each status, of formulas that are
/// made, and of what is printed.
pub fn gimsatul<H: Threads + Wait + Sync, F: Files, I: Source, O: Sink, E: Sink, G: Gate + Sync>(
    rt: &H,
    alloc: Global,
    words: &[String],
    files: &mut F,
    input: &mut I,
    out: &mut O,
    err: &mut E,
    gate: &G,
) -> Report<F::Reader, F::Writer>
    ensures headline { Statuses (record {
      words = map string_bytes words.now;
      contents = F.contents files.old;
      files = faults_between F.faults files.old files.new;
      left = I.left input.old;
      input = faults_between I.faults input.old input.new;
      file = option_map F.Reader.faults result.file;
      proof = writer_of F.Writer.faults F.Writer.written F.Writer.flushed result.proof;
      out = output_between O.faults O.written O.flushed out.old out.new;
    }) result.status result.model result.tally }
    ensures promise { Promise (map string_bytes words.now) (F.contents files.old) (I.left input.old) (option_and_then F.Writer.written result.proof) result.status result.model }
    ensures target { IfSome result.proof (λ writer. F.Writer.target writer ≡ target_in (F.contents files.old) (proof_path (command_of (map string_bytes words.now)))) }
    ensures unprinted { prints_at result.status ≡ false → out.new ≡ out.old }
    ensures unread { leaves_input_at result.status ≡ true → input.new ≡ input.old }
    ensures idle { result.proof ≡ None → input.new ≡ input.old }
    ensures file_alone { is_some (file_path (command_of (map string_bytes words.now))) ≡ true → input.new ≡ input.old }
    ensures made_alone { is_some (make_number (command_of (map string_bytes words.now))) ≡ true → input.new ≡ input.old }
    ensures input_rest { IsReadNoFurther (I.left input.old) (I.left input.new) }
    ensures file_rest { IsFileRead F.Reader.left (F.contents files.old) (file_path (command_of (map string_bytes words.now))) result.file }
    ensures input_failed { result.status ≡ 5 → result.file ≡ None → FailedLast I.left I.failed I.faults input.old input.new }
    ensures file_failed { result.status ≡ 5 → FileFailedLast F.Reader.left F.Reader.failed F.Reader.faults (F.contents files.old) (file_path (command_of (map string_bytes words.now))) result.file }
    ensures file_unread { result.status ≡ 4 → IsOpened F.Reader.left F.Reader.faults (F.contents files.old) (file_path (command_of (map string_bytes words.now))) result.file }
    ensures contents { F.contents files.new ≡ F.contents files.old }
    ensures unopened { leaves_files_at result.status (is_some result.proof) ≡ true → files.new ≡ files.old }
    ensures uncreated { result.status ≡ 3 → F.tried files.new ≡ opened_once (file_path (command_of (map string_bytes words.now))) (F.tried files.old) }
    ensures tried { leaves_files_at result.status (is_some result.proof) ≡ false → result.status ≢ 3 → F.tried files.new ≡ created_once (proof_path (command_of (map string_bytes words.now))) (opened_once (file_path (command_of (map string_bytes words.now))) (F.tried files.old)) }
{
    // A text that spells a formula has no bad place, so a call that must answer does not refuse the input.
    read_or_bad();
    let ended = run(rt, alloc, words, files, input, out, gate);
    let _ = put_message(err, &ended.end);
    report_of(ended)
}
