//! `gimsatul [--threads N] [--conflicts N] [--round K] [--words N] [--slots N] [--seed N] [--walk N] [--proof PATH] [--binary] [--lrat] [--no-simplify] [--add] [--check] [--make N] [FILE]`
//! reads a formula in DIMACS CNF from the file, or from standard input if no file is given, or makes one, decides it by rings on
//! threads of their own, prints the answer, and writes the proof to the path.
//! `gimsatul` of `top_call` is the whole of it, over any files and streams; `main` gives it the real ones.
#![tactic(auto)]

ghost use Rattle.std.specs.Prelude.{IfErr};
ghost use Rattle.top_call.specs.Ends.{IsWordsEnd};

#[cfg(test)]
mod tests;
#[cfg(test)]
mod tests_answer;
#[cfg(test)]
mod tests_call;
#[cfg(test)]
mod tests_devices;
#[cfg(test)]
mod tests_message;
#[cfg(test)]
mod tests_rings;

use io_edge::{StdFiles, StdSink, StdSource};
use ring_port::OpenGate;
use std::env;
use std::process::ExitCode;
use top_call::{CallEnd, gimsatul, put_message};

/// The arguments without the program's name. If they are no text, the call ends as if they were refused, or memory ran out.
fn words_of(rt: &HostRuntime) -> Result<Vec<String>, CallEnd>
    ensures { IfErr result IsWordsEnd }
{
    let args = match env::args(rt) {
        Ok(args) => args,
        Err(error) => return Err(CallEnd::of_arguments(error.kind())),
    };
    let mut words = Vec::new(rt.alloc());
    for word in args.skip(1) {
        if words.push(word).is_err() {
            return Err(CallEnd::Memory);
        }
    }
    Ok(words)
}

/// Says why the call is not made.
fn refuse(rt: &HostRuntime, end: &CallEnd) -> ExitCode {
    let _ = put_message(&mut StdSink::new(rt.stderr()), end);
    ExitCode::from(end.status())
}

/// Calls `gimsatul` on the real files and streams, with a gate that no ring stops at, and ends with its status.
fn main(rt: HostRuntime) -> ExitCode {
    let words = match words_of(&rt) {
        Ok(words) => words,
        Err(end) => return refuse(&rt, &end),
    };
    let mut files = StdFiles::new(&rt);
    let mut input = StdSource::new(rt.stdin());
    let mut out = StdSink::new(rt.stdout());
    let mut err = StdSink::new(rt.stderr());
    let report = gimsatul(
        &rt,
        rt.alloc(),
        &words,
        &mut files,
        &mut input,
        &mut out,
        &mut err,
        &OpenGate,
    );
    ExitCode::from(report.status)
}
