// The walk after the first import. A satisfiable formula may be decided by it at once, and else its best assignment is a better
// start than phases at random.
ghost use Rattle.std.specs.Prelude.{◌≡◌, ◌≤◌, ◌<◌, ◌^◌, ◌↔◌, Bool, true, All, IfOk, IfSome, OnErr, IsTrue, List, Some, map, length};
ghost use Rattle.sat_words.specs.Literal.{Literal};
ghost use Rattle.sat_words.specs.Truth.{lit_true};
ghost use Rattle.sat_words.specs.declared.shared.Cref.{Cref};
ghost use Rattle.sat_words.specs.Clause.{clause_of};
ghost use Rattle.ring_port.specs.PortState.{IsPort, HoldsStart, lits_at};
ghost use Rattle.ring_trail.specs.TrailData.{IsTrail, IsTrueOn};
ghost use Rattle.ring_run.specs.Ended.{IsJobOf};
ghost use Rattle.ring_run.specs.Searching.{IsHeldBy};
ghost use Rattle.ring_run.specs.Strategy.{Decides};
ghost use Rattle.ring_run.specs.Walked.{WalkedFrom, Walks, IsFound, Agrees, EndsFound, lits_of};

use crate::course::Next;
use crate::job::{End, Job};
use rand_pcg::Lcg64Xsh32;
use ring_decide::Decider;
use ring_port::Port;
use ring_trail::Trail;
use ring_walk::Walker;
use sat_words::{Assignment, Clause, Cref, Lit};
use std::alloc::{AllocError, Global};

/// The clause that is held at an address, as a set of literals.
fn clause_at<P: Port>(alloc: Global, port: &mut P, clause: Cref) -> Result<Clause, AllocError>
    requires port { IsPort (P.state port.old) }
    requires held { IsHeldBy (P.state port.old) clause }
    ensures same { P.state port.new ≡ P.state port.old }
    ensures clause { IfOk result (λ c. c ≡ clause_of (lits_at (P.state port.old) clause.address)) }
{
    let size = port.shape(clause).size;
    let mut lits = Vec::with_capacity(alloc, size as usize)?;
    for i in 0..size {
        lits.push(port.read_lit(clause, i))?;
    }
    Clause::from_lits(alloc, lits.as_slice())
}

/// The clauses that are held at these addresses, in their order.
fn clauses_of<P: Port>(
    alloc: Global,
    port: &mut P,
    clauses: &[Cref],
) -> Result<Vec<Clause>, AllocError>
    requires port { IsPort (P.state port.old) }
    requires held { All (IsHeldBy (P.state port.old)) clauses.now }
    ensures same { P.state port.new ≡ P.state port.old }
    ensures clauses { IfOk result (λ v. v.items ≡ map (λ (c : Cref). clause_of (lits_at (P.state port.old) c.address)) clauses.now) }
{
    let mut all = Vec::with_capacity(alloc, clauses.len())?;
    for clause in clauses {
        all.push(clause_at(alloc, port, *clause)?)?;
    }
    Ok(all)
}

/// The literals that are true, in the order of the trail.
fn true_lits(alloc: Global, trail: &Trail) -> Result<Vec<Lit>, AllocError>
    ensures lits { IfOk result (λ v. v.items ≡ lits_of trail.now.steps) }
    ensures shape { IsTrail trail.now }
{
    let mut lits = Vec::with_capacity(alloc, trail.len() as usize)?;
    for place in 0..trail.len() {
        lits.push(trail.lit_at(place))?;
    }
    Ok(lits)
}

/// Walks from the phases, and takes the best assignment as phases. Answers it if no clause is false under it.
fn walk_from<P: Port>(
    alloc: Global,
    port: &mut P,
    trail: &Trail,
    decider: &mut Decider,
    job: &Job,
) -> Result<Option<Assignment>, AllocError>
    requires job { IsJobOf (P.state port.old) job.now }
    requires port { IsPort (P.state port.old) }
    requires held { HoldsStart (P.state port.old) }
    requires vars { trail.now.vars ≡ (P.state port.old).vars }
    requires decides { Decides (P.state port.old) decider.old }
    ensures same { P.state port.new ≡ P.state port.old }
    ensures port { IsPort (P.state port.new) }
    ensures walked { IfOk result (WalkedFrom (P.state port.old) job.now trail.now.steps decider.old decider.new) }
    ensures model { IfOk result (IsFound (P.state port.old)) }
    ensures active { decider.new.active ≡ decider.old.active }
{
    let clauses = clauses_of(alloc, port, job.start.as_slice())?;
    let units = true_lits(alloc, trail)?;
    let first = decider.phases(alloc)?;
    let mut walker = Walker::new(
        alloc,
        job.vars,
        clauses.as_slice(),
        units.as_slice(),
        &first,
    )?;
    let mut generator = Lcg64Xsh32::new(job.seed, 16 + job.ring as u64);
    let count = walker.walk(job.walk, &mut generator);
    decider.take_phases(walker.best());
    if count > 0 {
        return Ok(None);
    }
    Ok(Some(decider.phases(alloc)?))
}

/// Walks if the job says so. Answers an assignment that makes each start clause true if the walk found one.
pub(crate) fn walk_first<P: Port>(
    alloc: Global,
    port: &mut P,
    trail: &Trail,
    decider: &mut Decider,
    job: &Job,
) -> Result<Option<Assignment>, AllocError>
    requires job { IsJobOf (P.state port.old) job.now }
    requires port { IsPort (P.state port.old) }
    requires held { HoldsStart (P.state port.old) }
    requires vars { trail.now.vars ≡ (P.state port.old).vars }
    requires decides { Decides (P.state port.old) decider.old }
    ensures same { P.state port.new ≡ P.state port.old }
    ensures port { IsPort (P.state port.new) }
    ensures walks { IfOk result (Walks (P.state port.old) job.now trail.now.steps decider.old decider.new) }
    ensures some { OnErr result (0 < job.now.walk) }
    ensures model { IfOk result (IsFound (P.state port.old)) }
    ensures active { decider.new.active ≡ decider.old.active }
{
    if job.walk == 0 {
        return Ok(None);
    }
    walk_from(alloc, port, trail, decider, job)
}

/// Whether each literal that is true is so under the assignment.
fn makes_true(model: &Assignment, trail: &Trail) -> bool
    ensures { IsTrue result ↔ ((l : Literal) → IsTrueOn trail.now.steps l → lit_true model.now l ≡ true) }
{
    for place in 0..trail.len() {
        if !model.truth_of_lit(trail.lit_at(place)) {
            return false;
        }
    }
    true
}

/// Whether there is an assignment, nothing is decided, and each literal that is true is so under the assignment.
pub(crate) fn agrees(model: &Option<Assignment>, trail: &Trail) -> bool
    ensures { IsTrue result ↔ ((a : List Bool) × (model.now ≡ Some a) × Agrees trail.now a) }
{
    match model {
        Some(model) => trail.decision_level() == 0 && makes_true(model, trail),
        None => false,
    }
}

/// An assignment with the same values.
fn copy_of(alloc: Global, model: &Assignment) -> Result<Assignment, AllocError>
    requires { length model.now ≤ 2 ^ 30 }
    ensures { IfOk result (λ a. a ≡ model.now) }
{
    let mut copy = Assignment::new(alloc, model.len() as u32)?;
    for i in 0..model.len() {
        copy.set(i as u32 + 1, model.value(i as u32 + 1));
    }
    Ok(copy)
}

/// The end with the assignment that the walk found; without memory for it, that of want of memory.
pub(crate) fn end_found(alloc: Global, model: &Option<Assignment>) -> Next
    requires { IfSome model.now (λ a. length a ≤ 2 ^ 30) }
    ensures { EndsFound model.now result }
{
    let Some(model) = model else {
        return Next::Finish(End::Memory);
    };
    match copy_of(alloc, model) {
        Ok(model) => Next::Finish(End::Sat(model)),
        Err(_) => Next::Finish(End::Memory),
    }
}
