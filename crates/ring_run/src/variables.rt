// Which variables the ring decides, and what it notes of them on the way: those of the start clauses are active, those that
// lose their values keep them as their phases, and those analyzed in a conflict are bumped (sorted by when they were bumped
// before, as in CaDiCaL).
ghost use Rattle.std.specs.Prelude.{◌≡◌, All, IfOk, OnOk, IsSome, Contains, length, map};
ghost use Rattle.sat_words.specs.declared.shared.Cref.{Cref};
ghost use Rattle.ring_port.specs.PortState.{IsPort, held_at, lits_at};
ghost use Rattle.ring_trail.specs.TrailData.{IsTrail};
ghost use Rattle.analyze.specs.AnalysisData.{IsVariable};
ghost use Rattle.ring_run.specs.declared.variables.Bump.{Bump};
ghost use Rattle.ring_run.specs.Searching.{IsHeldBy};
ghost use Rattle.ring_run.specs.Strategy.{AreMore, AreMarked, AreMarkedBy, OccurMarked, saved_above};

use ring_decide::Decider;
use ring_port::Port;
use ring_trail::Trail;
use sat_words::Cref;
use std::alloc::{AllocError, Global};

/// Marks the variables of a clause that is held.
fn mark_clause<P: Port>(port: &mut P, clause: Cref, marks: &mut Vec<bool>)
    requires port { IsPort (P.state port.old) }
    requires held { IsSome (held_at (P.state port.old) clause.address) }
    requires vars { length marks.old.items ≡ (P.state port.old).vars }
    ensures same { P.state port.new ≡ P.state port.old }
    ensures len { length marks.new.items ≡ length marks.old.items }
    ensures more { AreMore marks.old.items marks.new.items }
    ensures all { AreMarked marks.new.items (lits_at (P.state port.old) clause.address) }
    ensures only { AreMarkedBy marks.old.items marks.new.items (lits_at (P.state port.old) clause.address) }
{
    let size = port.shape(clause).size;
    for i in 0..size {
        let lit = port.read_lit(clause, i);
        marks[lit.var() as usize - 1] = true;
    }
}

/// Which variables occur in the clauses, variable 1 first. The clauses are held.
pub(crate) fn active_of<P: Port>(
    alloc: Global,
    port: &mut P,
    vars: u32,
    clauses: &[Cref],
) -> Result<Vec<bool>, AllocError>
    requires port { IsPort (P.state port.old) }
    requires vars { vars ≡ (P.state port.old).vars }
    requires held { All (IsHeldBy (P.state port.old)) clauses.now }
    ensures same { P.state port.new ≡ P.state port.old }
    ensures len { IfOk result (λ marks. length marks.items ≡ vars) }
    ensures all { IfOk result (λ marks. (c : Cref) → Contains clauses.now c → AreMarked marks.items (lits_at (P.state port.old) c.address)) }
    ensures only { IfOk result (λ marks. OccurMarked marks.items (map (λ (c : Cref). lits_at (P.state port.old) c.address) clauses.now)) }
{
    let mut marks = Vec::new(alloc);
    marks.resize(vars as usize, false)?;
    for clause in clauses {
        mark_clause(port, *clause, &mut marks);
    }
    Ok(marks)
}

/// Notes the values that are lost where the trail goes back to this level.
pub(crate) fn save_phases(trail: &Trail, decider: &mut Decider, level: u32)
    requires trail { IsTrail trail.now }
    requires vars { length decider.old.active ≡ trail.now.vars }
    ensures saved { decider.new ≡ saved_above decider.old trail.now.steps level }
    ensures active { decider.new.active ≡ decider.old.active }
{
    if trail.decision_level() <= level {
        return;
    }
    for place in trail.start(level + 1)..trail.len() {
        decider.save(trail.lit_at(place));
    }
}

/// A variable analyzed in a conflict, and when it was bumped before. In order the one bumped first comes first.
#[derive(Clone, Copy, PartialEq, Eq, PartialOrd, Ord)]
pub(crate) struct Bump {
    stamp: u64,
    var: u32,
}

/// Lists the variables with their stamps, in place of what was listed.
fn list_bumps(decider: &Decider, analyzed: &[u32], bumps: &mut Vec<Bump>) -> Result<(), AllocError>
    requires on { All (IsVariable (length decider.now.active)) analyzed.now }
    ensures on { OnOk result (All (λ (b : Bump). IsVariable (length decider.now.active) b.var) bumps.new.items) }
{
    bumps.clear();
    for var in analyzed {
        bumps.push(Bump {
            stamp: decider.stamp(*var),
            var: *var,
        })?;
    }
    Ok(())
}

/// Bumps the listed variables in their order.
fn bump_each(decider: &mut Decider, bumps: &[Bump])
    requires on { All (λ (b : Bump). IsVariable (length decider.old.active) b.var) bumps.now }
    ensures same { decider.new ≡ decider.old }
{
    for bump in bumps {
        decider.bump(bump.var);
    }
}

/// Bumps the variables analyzed in a conflict, so that those in the queue keep their order at its end, and lets the decider
/// count the conflict. The list keeps its room from call to call.
pub(crate) fn bump_analyzed(
    decider: &mut Decider,
    analyzed: &[u32],
    bumps: &mut Vec<Bump>,
) -> Result<(), AllocError>
    requires on { All (IsVariable (length decider.old.active)) analyzed.now }
    ensures same { decider.new ≡ decider.old }
{
    list_bumps(decider, analyzed, bumps)?;
    bumps.sort_unstable();
    bump_each(decider, bumps.as_slice());
    decider.conflict();
    Ok(())
}
