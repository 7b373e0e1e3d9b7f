//! How a search of a problem begins: the port in memory over it, a ring that searches there alone, and one among three.
ghost use Rattle.std.specs.Prelude.{◌≡◌, ◌≤◌, ◌^◌, [], None, false, length, map, All, IfOk, IsSome};
ghost use Rattle.sat_words.specs.declared.shared.Cref.{Cref};
ghost use Rattle.drat_text.specs.CountedData.{begun_counting};
ghost use Rattle.ring_port.specs.PortState.{Holding, IsPort, HoldsStart, held_at};
ghost use Rattle.ring_port.specs.PlainPort.{begun_with};
ghost use Rattle.test_ports.specs.Crowd.{asked, all_left, crowd_of};
ghost use Rattle.ring_run.specs.Ended.{IsJobOf, IsUntouched};

use drat_text::{CountedLines, LineOut};
use ring_port::{PlainPort, Starts};
use ring_run::{Addresses, Job};
use sat_words::Cref;
use std::alloc::Global;
use std::test::Fail;
use test_formulas::Problem;
use test_ports::{Crowd, Gift};

/// The port in memory over a problem, on variables that literals can have, with so many tickets.
pub fn open_problem<L: LineOut + Drop>(
    alloc: Global,
    problem: Problem,
    limit: u64,
    lines: L,
) -> Result<PlainPort<L>, Fail>
    requires none { (L.told lines).entries ≡ 0 }
    requires last { (L.told lines).last ≡ length problem.formula.clauses }
    requires unspent { (L.told lines).spent ≡ false }
    ensures made { IfOk result (λ port. port.state ≡ begun_with problem.formula.vars problem.start.items problem.listed.items (L.told lines) limit) }
    ensures small { IfOk result (λ port. port.state.vars ≤ 2 ^ 30) }
    ensures holds { IfOk result (λ port. HoldsStart port.state) }
    ensures port { IfOk result (λ port. IsPort port.state) }
{
    let Problem {
        formula,
        start,
        units: _,
        listed,
    } = problem;
    let vars = formula.vars();
    if vars > 1 << 30 {
        return Err(Fail::from("too many variables"));
    }
    let starts = Starts::of_clauses(alloc, start.as_slice())?;
    let Ok(port) = PlainPort::new(alloc, vars, starts, listed, lines, limit) else {
        return Err(Fail::from("no memory for the port"));
    };
    Ok(port)
}

/// The port in memory over a problem, which has no ticket, and the addresses of its start clauses.
pub fn open_over<L: LineOut + Drop>(
    alloc: Global,
    problem: Problem,
    lines: L,
) -> Result<(PlainPort<L>, Vec<Cref>), Fail>
    requires none { (L.told lines).entries ≡ 0 }
    requires last { (L.told lines).last ≡ length problem.formula.clauses }
    requires unspent { (L.told lines).spent ≡ false }
    ensures made { IfOk result (λ opened. opened.0.state ≡ begun_with problem.formula.vars problem.start.items problem.listed.items (L.told lines) 0) }
    ensures start { IfOk result (λ opened. opened.1.items ≡ map (λ (h : Holding). record { address = h.address }) opened.0.state.start) }
    ensures held { IfOk result (λ opened. All (λ (c : Cref). IsSome (held_at opened.0.state c.address)) opened.1.items) }
{
    let port = open_problem(alloc, problem, 0, lines)?;
    let start = port.start(alloc)?;
    Ok((port, start))
}

/// The same whose lines are only counted.
pub fn open_counted(
    alloc: Global,
    problem: Problem,
) -> Result<(PlainPort<CountedLines>, Vec<Cref>), Fail>
    ensures made { IfOk result (λ opened. opened.0.state ≡ begun_with problem.formula.vars problem.start.items problem.listed.items (begun_counting (length problem.formula.clauses)) 0) }
    ensures start { IfOk result (λ opened. opened.1.items ≡ map (λ (h : Holding). record { address = h.address }) opened.0.state.start) }
    ensures held { IfOk result (λ opened. All (λ (c : Cref). IsSome (held_at opened.0.state c.address)) opened.1.items) }
{
    let lines = CountedLines::new(problem.formula.clauses().len() as u64, 0);
    open_over(alloc, problem, lines)
}

/// The port in memory over a problem, with so many tickets, and the job of a ring that searches there alone.
pub fn begin<L: LineOut + Drop>(
    alloc: Global,
    problem: Problem,
    limit: u64,
    seed: u64,
    lines: L,
) -> Result<(PlainPort<L>, Job), Fail>
    requires none { (L.told lines).entries ≡ 0 }
    requires last { (L.told lines).last ≡ length problem.formula.clauses }
    requires unspent { (L.told lines).spent ≡ false }
    ensures made { IfOk result (λ begun. begun.0.state ≡ begun_with problem.formula.vars problem.start.items problem.listed.items (L.told lines) limit) }
    ensures job { IfOk result (λ begun. IsJobOf begun.0.state begun.1) }
    ensures asked { IfOk result (λ begun. begun.1.seed ≡ seed) }
    ensures untouched { IfOk result (λ begun. IsUntouched begun.0.state) }
    ensures port { IfOk result (λ begun. IsPort begun.0.state) }
    ensures held { IfOk result (λ begun. begun.0.state.held ≡ begun.0.state.start) }
{
    let vars = problem.formula.vars();
    let port = open_problem(alloc, problem, limit, lines)?;
    let start = Addresses::from_vec(port.start(alloc)?);
    let job = Job {
        ring: 0,
        rings: 1,
        vars,
        start,
        seed,
        walk: 0,
    };
    Ok((port, job))
}

/// The port of the second of three rings over a port in memory, and its job: another ring has the last clause, and hands it over
/// at the first such poll. The rings have so many tickets.
pub fn join_crowd<L: LineOut + Drop>(
    alloc: Global,
    inner: PlainPort<L>,
    alone: Job,
    gift: Option<Gift>,
    quiet: u64,
    memory: bool,
    limit: u64,
) -> Result<(Crowd<L>, Job), Fail>
    requires job { IsJobOf inner.state alone }
    requires untouched { IsUntouched inner.state }
    requires port { IsPort inner.state }
    requires held { inner.state.held ≡ inner.state.start }
    ensures made { IfOk result (λ joined. joined.0 ≡ crowd_of inner.state None None 0 None (asked 0 [] 0 (all_left limit))) }
    ensures job { IfOk result (λ joined. IsJobOf joined.0 joined.1) }
    ensures same { IfOk result (λ joined. joined.1.seed ≡ alone.seed) }
    ensures untouched { IfOk result (λ joined. IsUntouched joined.0) }
    ensures port { IfOk result (λ joined. IsPort joined.0) }
{
    let (port, start) = Crowd::over(alloc, inner, gift, quiet, memory, limit)?;
    let job = Job {
        ring: 1,
        rings: 3,
        start: Addresses::from_vec(start),
        ..alone
    };
    Ok((port, job))
}
