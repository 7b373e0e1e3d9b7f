// The port in memory, which the program never runs: tests search over it, with every byte known to contracts.
ghost use Rattle.std.specs.Prelude.{◌≡◌, ◌≤◌, ℕ, not, length, position, drop, Contains, IfOk, IfErr, OnOk, MatchOption, vec_len, vec_capacity, ◌<◌};
ghost use Rattle.sat_words.specs.Literal.{same};
ghost use Rattle.sat_words.specs.Clause.{has};
ghost use Rattle.ring_port.specs.PlainPort.{unit_lits, told_in, told_with};

use crate::stops::PortStop;
use sat_words::Lit;
use std::alloc::{AllocError, Global};

/// The literals of units that are given with their numbers.
pub(crate) fn unit_lits(alloc: Global, units: &[(Lit, u64)]) -> Result<Vec<Lit>, AllocError>
    ensures { IfOk result (λ lits. lits.items ≡ unit_lits units.now) }
{
    let mut lits = Vec::with_capacity(alloc, units.len())?;
    for unit in units {
        lits.push(unit.0)?;
    }
    Ok(lits)
}

/// The units with their numbers, if additions have hints; else none.
pub(crate) fn told_in(alloc: Global, hinted: bool, units: Vec<(Lit, u64)>) -> Vec<(Lit, u64)>
    ensures { result.items ≡ told_in hinted units.items }
{
    if hinted { units } else { Vec::new(alloc) }
}

/// Takes room for one unit more in both.
pub(crate) fn make_unit_room(
    written: &mut Vec<Lit>,
    told: &mut Vec<(Lit, u64)>,
) -> Result<(), PortStop>
    ensures written { written.new.items ≡ written.old.items }
    ensures told { told.new.items ≡ told.old.items }
    ensures room { OnOk result (vec_len written.new < vec_capacity written.new) }
    ensures told_room { OnOk result (vec_len told.new < vec_capacity told.new) }
    ensures memory { IfErr result (λ stop. stop ≡ PortStop.Memory) }
{
    if written.reserve(1).is_err() || told.reserve(1).is_err() {
        return Err(PortStop::Memory);
    }
    Ok(())
}

/// Notes a unit that was written under this number, for which there is room, if additions have hints.
pub(crate) fn note_told(told: &mut Vec<(Lit, u64)>, hinted: bool, lit: Lit, number: u64)
    requires { vec_len told.old < vec_capacity told.old }
    ensures { told.new.items ≡ told_with hinted told.old.items lit number }
{
    if hinted {
        told.push_reserved((lit, number));
    }
}

/// The place of the first unit that is this literal.
fn place_of(told: &[(Lit, u64)], lit: Lit) -> Option<usize>
    ensures { result ≡ position (λ u. same u.0 lit) told.now }
{
    told.iter().position(|unit| unit.0 == lit)
}

/// The number under which this unit was told; none exactly if it has none.
pub(crate) fn number_of(told: &[(Lit, u64)], lit: Lit) -> Option<u64>
    ensures { MatchOption result ((n : ℕ) → Contains told.now (lit, n) → ⊥) (λ n. Contains told.now (lit, n)) }
{
    match place_of(told, lit) {
        Some(place) => {
            let unit = told[place];
            Some(unit.1)
        }
        None => None,
    }
}

/// The place of the first unit that was not written.
fn first_new(units: &[Lit], written: &[Lit]) -> Option<usize>
    ensures { result ≡ position (λ l. not (has written.now l)) units.now }
{
    units.iter().position(|lit| !written.contains(lit))
}

/// How many units from a place on were written, up to the first that was not.
pub(crate) fn first_new_from(units: &[Lit], from: usize, written: &[Lit]) -> Option<usize>
    requires { from ≤ length units.now }
    ensures { result ≡ position (λ l. not (has written.now l)) (drop from units.now) }
{
    first_new(&units[from..], written)
}
