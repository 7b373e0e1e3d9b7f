//! Start clauses and listed units over small formulas, checked before a core is made of them.
ghost use Rattle.std.specs.Prelude.{◌≡◌, ◌∷◌, [], List, ◌||◌, ◌==◌, map, IfOk};
ghost use Rattle.std.specs.List.{list_any, list_all};
ghost use Rattle.std.specs.Option.{unwrap_or};
ghost use Rattle.rup_model.specs.Journal.{formula_clause};
ghost use Rattle.share_core.specs.declared.stored.ClauseAt.{ClauseAt};
ghost use Rattle.share_core.specs.State.{opened, unit_lits};
ghost use Rattle.rup_model.specs.declared.journal.Entry.{Entry};
ghost use Rattle.share_core.specs.Machine.{state_of, start_at, core_opening};
ghost use Rattle.share_core.specs.NextRound.{IsNextRound, next_opening};
ghost use Rattle.test_core.specs.Fitting.{start_fits, unit_fits, stand_apart, opens};

use crate::literals::{are_distinct, is_long, names_unit};
use sat_words::{Clause, Formula, Lit, Lits};
use share_core::{ClauseAt, Core, RoundLine};
use std::alloc::{AllocError, Global};
use std::test::Fail;

/// Whether it has an address, and the number of a clause that is long.
pub fn start_fits(s: &ClauseAt, clauses: &[Clause]) -> bool
    ensures { result ≡ start_fits clauses.now s.now }
{
    1 <= s.number
        && s.number <= clauses.len() as u64
        && s.address != 0
        && is_long(s.lits.as_slice())
}

/// Whether each of them does.
pub fn all_fit(starts: &[ClauseAt], clauses: &[Clause]) -> bool
    ensures { result ≡ list_all (start_fits clauses.now) starts.now }
{
    starts.iter().all(|s| start_fits(s, clauses))
}

fn stands_among(s: &ClauseAt, starts: &[ClauseAt]) -> bool
    ensures { result ≡ list_any (λ (h : ClauseAt). (h.address == s.now.address) || (h.number == s.now.number)) starts.now }
{
    starts
        .iter()
        .any(|h| h.address == s.address || h.number == s.number)
}

/// Whether their addresses differ, and their numbers.
pub fn stand_apart(starts: &[ClauseAt]) -> bool
    ensures { result ≡ stand_apart starts.now }
{
    match starts {
        [] => true,
        [first, rest @ ..] => !stands_among(first, rest) && stand_apart(rest),
    }
}

/// Whether each unit has the number of a clause that is this unit.
pub fn all_named(units: &[(Lit, u64)], clauses: &[Clause]) -> bool
    ensures { result ≡ list_all (unit_fits clauses.now) units.now }
{
    units.iter().all(|unit| names_unit(clauses, unit.1, unit.0))
}

/// The literals of the units.
pub fn lits_of(alloc: Global, units: &[(Lit, u64)]) -> Result<Vec<Lit>, AllocError>
    ensures { IfOk result (λ lits. lits.items ≡ unit_lits units.now) }
{
    let mut lits = Vec::new(alloc);
    for unit in units {
        lits.push(unit.0)?;
    }
    Ok(lits)
}

/// Whether a core may be opened with these, of which the literals are those of the units.
pub fn opens(
    clauses: &[Clause],
    starts: &[ClauseAt],
    units: &[(Lit, u64)],
    lits: &[Lit],
    rings: u32,
    depth: u32,
    limit: u64,
) -> bool
    requires { lits.now ≡ unit_lits units.now }
    ensures { result ≡ opens clauses.now starts.now units.now rings depth limit }
{
    1 <= rings
        && rings <= 16
        && 1 <= depth
        && depth <= 16
        && limit <= 1 << 63
        && all_fit(starts, clauses)
        && stand_apart(starts)
        && all_named(units, clauses)
        && are_distinct(lits)
}

/// The literals of the formula's clause with this number, none if there is no such clause.
fn lits_under(alloc: Global, clauses: &[Clause], number: u64) -> Result<Lits, AllocError>
    ensures { IfOk result (λ lits. lits ≡ unwrap_or (formula_clause clauses.now number) []) }
{
    if number == 0 || number > clauses.len() as u64 {
        return Lits::from_slice(alloc, &[]);
    }
    let index = (number - 1) as usize;
    Lits::from_slice(alloc, clauses[index].lits())
}

/// The clause with this number, at an address.
fn start_clause(
    alloc: Global,
    clauses: &[Clause],
    address: u64,
    number: u64,
) -> Result<ClauseAt, AllocError>
    ensures { IfOk result (λ h. h ≡ record { address = address; number = number; lits = unwrap_or (formula_clause clauses.now number) [] }) }
{
    Ok(ClauseAt {
        address,
        number,
        lits: lits_under(alloc, clauses, number)?,
    })
}

/// The clauses with these numbers, each at its address.
pub fn start_clauses(
    alloc: Global,
    clauses: &[Clause],
    start: &[(u64, u64)],
) -> Result<Vec<ClauseAt>, AllocError>
    ensures { IfOk result (λ hs. hs.items ≡ map (start_at clauses.now) start.now) }
{
    let mut starts = Vec::new(alloc);
    for pair in start {
        starts.push(start_clause(alloc, clauses, pair.0, pair.1)?)?;
    }
    Ok(starts)
}

/// The core over the formula, if these open one.
pub fn core_over(
    alloc: Global,
    formula: Formula,
    start: &[(u64, u64)],
    units: &[(Lit, u64)],
    rings: u32,
    depth: u32,
    limit: u64,
    hinted: bool,
) -> Result<Core, Fail>
    ensures { IfOk result (λ core. state_of core ≡ opened (core_opening formula.clauses start.now units.now rings depth limit hinted)) }
{
    let starts = start_clauses(alloc, formula.clauses(), start)?;
    let lits = lits_of(alloc, units)?;
    if !opens(
        formula.clauses(),
        starts.as_slice(),
        units,
        lits.as_slice(),
        rings,
        depth,
        limit,
    ) {
        return Err(Fail::from("no opening"));
    }
    Ok(Core::new(alloc, formula, start, units, rings, depth, limit, hinted)?)
}

/// The core in its next round, if it may begin with these.
pub fn next_over(
    alloc: Global,
    core: Core,
    lines: &[RoundLine],
    start: &[(u64, u64)],
    units: &[(Lit, u64)],
    limit: u64,
) -> Result<Core, Fail>
    ensures { (E : List Entry) → IsNextRound (state_of core) lines.now start.now units.now limit E → IfOk result (λ next. state_of next ≡ opened (next_opening (state_of core) E start.now units.now limit)) }
{
    if !core.may_begin(alloc, lines, start, units, limit)? {
        return Err(Fail::from("no round"));
    }
    Ok(core.next_round(alloc, lines, start, units, limit)?)
}
