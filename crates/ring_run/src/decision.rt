// If nothing is left to propagate: lines of units, a decision, or a model.
ghost use Rattle.std.specs.Prelude.{◌≡◌, ◌<◌, true, false, length, Some, IfOk, OnOk, IfErr};
ghost use Rattle.sat_words.specs.Literal.{Literal};
ghost use Rattle.sat_words.specs.Truth.{lit_true};
ghost use Rattle.ring_port.specs.PortState.{IsPort, lits_at};
ghost use Rattle.ring_trail.specs.TrailData.{IsTrail, IsTrueOn};
ghost use Rattle.watch_prop.specs.Propagation.{IsQuiet};
ghost use Rattle.ring_run.specs.Ended.{Stays};
ghost use Rattle.ring_run.specs.Strategy.{Decides};
ghost use Rattle.ring_run.specs.Walked.{IsFound};
ghost use Rattle.ring_run.specs.Searching.{CanDraw, OffersNothing, AreFirst, KeepsOn, OnlyWrote, ToldUnits};
ghost use Rattle.ring_run.specs.Ending.{EndsAt, HaltsTelling, end_refused};
ghost use Rattle.ring_run.specs.Turn.{ActedAtQuiet, EndsDeciding, EndsQuietly};
ghost use Rattle.ring_run.specs.Course.{AreSameOffers, InSearch, HasLemmas, KeepsLemmas, Leads, IsFurther, KeepsLooking, TakesALook, KeepsOffering, KeepsPolling, IsPolling, HasPolledBy, KeepsImporting, KeepsTidy, KeepsInTime, HasDecided};

use crate::course::{Next, end_refused};
use crate::job::End;
use crate::reduction::reduce_vivify_import;
use crate::ring::Ring;
use crate::units::write_units;
use crate::walking::{agrees, end_found};
use analyze::Analysis;
use ring_port::{Port, PortStop};
use ring_trail::Trail;
use sat_words::Assignment;
use std::alloc::{AllocError, Global};

/// The assignment that makes the literals of the trail true. A variable without a value is false.
fn model_of(alloc: Global, trail: &Trail) -> Result<Assignment, AllocError>
    requires { IsTrail trail.now }
    ensures long { IfOk result (λ model. length model ≡ trail.now.vars) }
    ensures all { IfOk result (λ model. (l : Literal) → IsTrueOn trail.now.steps l → lit_true model l ≡ true) }
    ensures rest { IfOk result (λ model. (l : Literal) → l.neg ≡ false → lit_true model l ≡ true → IsTrueOn trail.now.steps l) }
{
    let mut model = Assignment::new(alloc, trail.vars())?;
    for place in 0..trail.len() {
        let lit = trail.lit_at(place);
        model.set(lit.var(), !lit.is_neg());
    }
    Ok(model)
}

/// Decides a variable of the start clauses that has no value. If there is none, each of these is true. So it is if the walk found
/// an assignment, and that makes true what is true without a decision. A look that found no stop came before.
fn decide<P: Port>(alloc: Global, port: &mut P, ring: &mut Ring, model: &Option<Assignment>) -> Next
    requires search { InSearch (P.state port.old) ring.old }
    requires decides { Decides (P.state port.old) ring.old.decider }
    requires quiet { IsQuiet ring.old.watches (lits_at (P.state port.old)) ring.old.trail }
    requires first { AreFirst ring.old.trail ring.old.written }
    requires settled { ring.old.import_due ≡ false }
    requires found { IsFound (P.state port.old) model.now }
    ensures leads { Leads (P.state port.old) ring.old (P.state port.new) ring.new result }
    ensures ended { EndsDeciding (P.state port.old) ring.old ring.new result }
    ensures learned { ring.new.learned ≡ ring.old.learned }
    ensures decided { result ≡ Next.Go → HasDecided ring.old ring.new }
    ensures longer { result ≡ Next.Go → length ring.old.trail.steps < length ring.new.trail.steps }
    ensures import_due { ring.new.import_due ≡ ring.old.import_due }
    ensures polls { KeepsPolling (P.state port.old) ring.old (P.state port.new) ring.new result }
    ensures looks { TakesALook (P.state port.old) ring.old ring.new result }
    ensures restarts { ring.new.restarts ≡ ring.old.restarts }
    ensures offers { AreSameOffers ring.old ring.new }
    ensures listed { KeepsLemmas (P.state port.old) ring.old (P.state port.new) ring.new }
    ensures active { ring.new.decider.active ≡ ring.old.decider.active }
    ensures port { IsPort (P.state port.new) }
    ensures same { P.state port.new ≡ P.state port.old }
{
    if agrees(model, &ring.trail) {
        return end_found(alloc, model);
    }
    if let Some(lit) = ring.decider.next(&ring.trail) {
        ring.trail.decide(lit);
        return Next::Go;
    }
    match model_of(alloc, &ring.trail) {
        Ok(model) => Next::Finish(End::Sat(model)),
        Err(_) => Next::Finish(End::Memory),
    }
}

/// Writes the lines of literals that are true without a decision, as far as they have none yet.
pub(crate) fn write_pending<P: Port>(
    port: &mut P,
    ring: &mut Ring,
    analysis: &mut Analysis,
) -> Result<(), PortStop>
    requires search { InSearch (P.state port.old) ring.old }
    requires analysis { analysis.old.vars ≡ ring.old.trail.vars }
    ensures ok { OnOk result (KeepsOn (P.state port.old) (P.state port.new)) }
    ensures over { IfErr result (λ stop. EndsAt (P.state port.old) (P.state port.new) (end_refused stop)) }
    ensures halts { IfErr result (λ stop. HaltsTelling (P.state port.old) (P.state port.new) ring.old.trail.steps (end_refused stop)) }
    ensures search { OnOk result (InSearch (P.state port.new) ring.new) }
    ensures held { (P.state port.new).held ≡ (P.state port.old).held }
    ensures looks { (P.state port.new).looks ≡ (P.state port.old).looks }
    ensures waiting { (P.state port.new).waiting ≡ (P.state port.old).waiting }
    ensures first { OnOk result (AreFirst ring.new.trail ring.new.written) }
    ensures whole { OnOk result (ring.old.trail.level ≡ 0 → ring.new.written ≡ length ring.new.trail.steps) }
    ensures import_due { ring.new.import_due ≡ ring.old.import_due }
    ensures trail { ring.new.trail ≡ ring.old.trail }
    ensures stays { OnOk result (Stays (P.state port.old) (P.state port.new)) }
    ensures wrote { OnOk result (OnlyWrote (P.state port.old) (P.state port.new)) }
    ensures lines { OnOk result (ToldUnits (P.state port.old) (P.state port.new)) }
    ensures watches { ring.new.watches ≡ ring.old.watches }
    ensures same { ring.new ≡ record ring.old { written = ring.new.written } }
    ensures listed { OnOk result (KeepsLemmas (P.state port.old) ring.old (P.state port.new) ring.new) }
    ensures learned { ring.new.learned ≡ ring.old.learned }
    ensures restarts { ring.new.restarts ≡ ring.old.restarts }
    ensures offers { AreSameOffers ring.old ring.new }
    ensures nothing { OffersNothing (P.state port.old) (P.state port.new) }
    ensures decider { ring.new.decider ≡ ring.old.decider }
    ensures analysis { analysis.new.vars ≡ analysis.old.vars }
    ensures port { IsPort (P.state port.new) }
{
    if ring.trail.decision_level() != 0 {
        return Ok(());
    }
    match write_units(port, &ring.trail, analysis, ring.written) {
        Ok(()) => {
            ring.written = ring.trail.len();
            Ok(())
        }
        Err(stop) => Err(stop),
    }
}

/// If nothing is left to propagate: looks for a stop, writes what is true for good, and decides; after a restart it
/// reduces its lemmas if that is due, and imports.
pub(crate) fn decide_next<P: Port>(
    alloc: Global,
    port: &mut P,
    ring: &mut Ring,
    analysis: &mut Analysis,
    model: &Option<Assignment>,
) -> Next
    requires search { InSearch (P.state port.old) ring.old }
    requires draws { CanDraw (P.state port.old) ring.old.learned }
    requires decides { Decides (P.state port.old) ring.old.decider }
    requires quiet { IsQuiet ring.old.watches (lits_at (P.state port.old)) ring.old.trail }
    requires polling { IsPolling (P.state port.old) ring.old }
    requires listed { HasLemmas (P.state port.old) ring.old }
    requires found { IsFound (P.state port.old) model.now }
    requires analysis { analysis.old.vars ≡ ring.old.trail.vars }
    ensures leads { Leads (P.state port.old) ring.old (P.state port.new) ring.new result }
    ensures ended { EndsQuietly (P.state port.old) (P.state port.new) ring.old ring.new result }
    ensures learned { ring.new.learned ≡ ring.old.learned }
    ensures further { result ≡ Next.Go → IsFurther (P.state port.old) ring.old (P.state port.new) ring.new }
    ensures acted { result ≡ Next.Go → ActedAtQuiet (P.state port.old) (P.state port.new) ring.old ring.new }
    ensures restarts { ring.new.restarts ≡ ring.old.restarts }
    ensures offering { KeepsOffering (P.state port.old) ring.old (P.state port.new) ring.new }
    ensures polls { HasPolledBy (P.state port.new) ring.new result }
    ensures imports { KeepsImporting (P.state port.old) ring.old (P.state port.new) ring.new result }
    ensures tidied { KeepsTidy (P.state port.old) (P.state port.new) result }
    ensures in_time { KeepsInTime (P.state port.old) ring.old (P.state port.new) ring.new result }
    ensures listed { result ≡ Next.Go → HasLemmas (P.state port.new) ring.new }
    ensures active { ring.new.decider.active ≡ ring.old.decider.active }
    ensures looks { KeepsLooking (P.state port.old) ring.old (P.state port.new) ring.new result }
    ensures analysis { analysis.new.vars ≡ analysis.old.vars }
    ensures port { IsPort (P.state port.new) }
{
    if let Some(stop) = port.stopped() {
        return Next::Finish(End::Stopped(stop));
    }
    match write_pending(port, ring, analysis) {
        Ok(()) => {}
        Err(stop) => return Next::Finish(end_refused(stop)),
    }
    if ring.import_due {
        return reduce_vivify_import(alloc, port, ring, analysis);
    }
    decide(alloc, port, ring, model)
}
