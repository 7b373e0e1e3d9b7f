// Where lemmas were reduced: those of small glue that are left are made shorter if that can be done (Li and others 2017).
ghost use Rattle.std.specs.Prelude.{◌≡◌, ◌≤◌, ◌<◌, true, false, length, None, IfOk, IfErr, OnOk, IsSome};
ghost use Rattle.sat_words.specs.Literal.{Literal};
ghost use Rattle.sat_words.specs.Clause.{has};
ghost use Rattle.ring_port.specs.PortState.{IsPort, held_at, lits_at};
ghost use Rattle.ring_trail.specs.TrailData.{IsTrueOn, assigned};
ghost use Rattle.ring_run.specs.Searching.{OffersNothing, KeepsOn};
ghost use Rattle.ring_run.specs.Renewal.{AreUnmixed, point, IsNamed, HasFollowed, WentOn, TookLemma, TookAll, TookPlace, IsResting, AwaitsUnit, LeftBehind, HaltsAt, MayVivify, KeepsOthers, IsLeft};
ghost use Rattle.ring_run.specs.Halting.{HaltsFollowing, HaltsAtLemma, HaltsAtPlace, HaltsVivifying};
ghost use Rattle.ring_run.specs.Course.{HasLemmas};

use crate::course::{end_refused, refute};
use crate::decision::write_pending;
use crate::job::End;
use crate::ring::Ring;
use analyze::Analysis;
use ring_port::Port;
use ring_trail::Trail;
use sat_words::{Cref, Lit};
use std::alloc::Global;
use vivify::{Vivified, vivify};
use watch_prop::Propagated;

/// The greatest glue of the lemmas that are vivified.
const GREATEST_GLUE: u32 = 2;

/// What a lemma's turn leaves of it.
#[derive(Clone, Copy)]
pub(crate) enum AfterVivify {
    /// The lemma itself.
    Unchanged,
    /// A shorter clause.
    Replaced(Cref),
    /// Nothing.
    Gone,
}

/// Whether a literal of a clause is true.
fn is_true<P: Port>(port: &mut P, trail: &Trail, c: Cref) -> bool
    requires port { IsPort (P.state port.old) }
    requires held { IsSome (held_at (P.state port.old) c.address) }
    requires vars { trail.now.vars ≡ (P.state port.old).vars }
    ensures same { P.state port.new ≡ P.state port.old }
    ensures yes { result ≡ true → (l : Literal) × (has (lits_at (P.state port.old) c.address) l ≡ true) × IsTrueOn trail.now.steps l }
    ensures no { result ≡ false → (l : Literal) → has (lits_at (P.state port.old) c.address) l ≡ true → IsTrueOn trail.now.steps l → ⊥ }
{
    let size = port.shape(c).size;
    for i in 0..size {
        let lit = port.read_lit(c, i);
        if trail.is_false(lit.not()) {
            return true;
        }
    }
    false
}

/// Whether a lemma is one of those that are vivified. One that is true at level 0 is left alone: nothing is gained by it.
fn is_named<P: Port>(port: &mut P, ring: &Ring, c: Cref) -> bool
    requires port { IsPort (P.state port.old) }
    requires held { IsSome (held_at (P.state port.old) c.address) }
    requires vars { ring.now.trail.vars ≡ (P.state port.old).vars }
    ensures same { P.state port.new ≡ P.state port.old }
    ensures yes { result ≡ true → IsNamed (point (P.state port.old) ring.now) c }
    ensures no { result ≡ false → IsNamed (point (P.state port.old) ring.now) c → ⊥ }
{
    let glue = port.shape(c).glue;
    if glue > GREATEST_GLUE {
        return false;
    }
    !is_true(port, &ring.trail, c)
}

/// Makes a unit true that is seen, and what follows from it, and writes their lines.
fn follow_unit<P: Port>(
    port: &mut P,
    ring: &mut Ring,
    analysis: &mut Analysis,
    lit: Lit,
) -> Result<(), End>
    requires awaits { AwaitsUnit (P.state port.old) ring.old lit }
    requires analysis { analysis.old.vars ≡ ring.old.trail.vars }
    ensures over { IfErr result (HaltsAt (P.state port.old) (P.state port.new)) }
    ensures halts { IfErr result (HaltsFollowing (P.state port.old) (P.state port.new) (assigned ring.old.trail lit None)) }
    ensures keeps { OnOk result (KeepsOn (P.state port.old) (P.state port.new)) }
    ensures resting { OnOk result (IsResting (P.state port.new) ring.new) }
    ensures followed { OnOk result (HasFollowed (point (P.state port.old) ring.old) (point (P.state port.new) ring.new) lit) }
    ensures same { ring.new ≡ record ring.old { trail = ring.new.trail; watches = ring.new.watches; written = ring.new.written } }
    ensures looks { (P.state port.new).looks ≡ (P.state port.old).looks }
    ensures nothing { OffersNothing (P.state port.old) (P.state port.new) }
    ensures vars { OnOk result (ring.new.trail.vars ≡ ring.old.trail.vars) }
    ensures analysis { analysis.new.vars ≡ analysis.old.vars }
    ensures port { IsPort (P.state port.new) }
{
    ring.trail.assign(lit, None);
    let Ok(propagated) = ring.watches.propagate(port, &mut ring.trail) else {
        return Err(End::Memory);
    };
    let _lawful = ring.trail.decision_level();
    match propagated {
        Propagated::Conflict(conflict) => {
            analysis.trace_clause(port, &ring.trail, &[], conflict);
            return Err(refute(port, analysis.hints()));
        }
        Propagated::Quiet => {}
    }
    match write_pending(port, ring, analysis) {
        Ok(()) => Ok(()),
        Err(stop) => Err(end_refused(stop)),
    }
}

/// What is left of a lemma that was vivified. A unit is made true, with what follows from it.
fn settle_left<P: Port>(
    port: &mut P,
    ring: &mut Ring,
    analysis: &mut Analysis,
    left: Vivified,
) -> Result<AfterVivify, End>
    requires left { LeftBehind (P.state port.old) ring.old left }
    requires analysis { analysis.old.vars ≡ ring.old.trail.vars }
    ensures over { IfErr result (HaltsAt (P.state port.old) (P.state port.new)) }
    ensures halts { IfErr result (λ end. (l : Literal) × (left ≡ Vivified.Unit l) × HaltsFollowing (P.state port.old) (P.state port.new) (assigned ring.old.trail l None) end) }
    ensures keeps { OnOk result (KeepsOn (P.state port.old) (P.state port.new)) }
    ensures resting { OnOk result (IsResting (P.state port.new) ring.new) }
    ensures went { IfOk result (WentOn (point (P.state port.old) ring.old) (point (P.state port.new) ring.new) left) }
    ensures same { ring.new ≡ record ring.old { trail = ring.new.trail; watches = ring.new.watches; written = ring.new.written } }
    ensures looks { (P.state port.new).looks ≡ (P.state port.old).looks }
    ensures nothing { OffersNothing (P.state port.old) (P.state port.new) }
    ensures vars { OnOk result (ring.new.trail.vars ≡ ring.old.trail.vars) }
    ensures analysis { analysis.new.vars ≡ analysis.old.vars }
    ensures port { IsPort (P.state port.new) }
{
    let _vars = port.vars();
    match left {
        Vivified::Kept | Vivified::Empty => Ok(AfterVivify::Unchanged),
        Vivified::Shorter(shorter) => Ok(AfterVivify::Replaced(shorter)),
        Vivified::Unit(lit) => match follow_unit(port, ring, analysis, lit) {
            Ok(()) => Ok(AfterVivify::Gone),
            Err(end) => Err(end),
        },
    }
}

/// Vivifies a lemma if it is one of those, and answers what is left of it.
fn vivify_lemma<P: Port>(
    alloc: Global,
    port: &mut P,
    ring: &mut Ring,
    analysis: &mut Analysis,
    c: Cref,
) -> Result<AfterVivify, End>
    requires resting { IsResting (P.state port.old) ring.old }
    requires lemma { MayVivify (P.state port.old) ring.old.watches c }
    requires analysis { analysis.old.vars ≡ ring.old.trail.vars }
    ensures over { IfErr result (HaltsAt (P.state port.old) (P.state port.new)) }
    ensures halts { IfErr result (HaltsAtLemma (point (P.state port.old) ring.old) (P.state port.new) c) }
    ensures keeps { OnOk result (KeepsOn (P.state port.old) (P.state port.new)) }
    ensures resting { OnOk result (IsResting (P.state port.new) ring.new) }
    ensures took { IfOk result (TookLemma (point (P.state port.old) ring.old) (point (P.state port.new) ring.new) c) }
    ensures others { OnOk result (KeepsOthers (P.state port.old) (P.state port.new) ring.old.watches ring.new.watches c) }
    ensures left { IfOk result (IsLeft (P.state port.old) (P.state port.new) ring.new.watches c) }
    ensures start { OnOk result ((P.state port.new).start ≡ (P.state port.old).start) }
    ensures steps { OnOk result (length ring.old.trail.steps ≤ length ring.new.trail.steps) }
    ensures same { ring.new ≡ record ring.old { trail = ring.new.trail; watches = ring.new.watches; written = ring.new.written } }
    ensures looks { (P.state port.new).looks ≡ (P.state port.old).looks }
    ensures nothing { OffersNothing (P.state port.old) (P.state port.new) }
    ensures vars { OnOk result (ring.new.trail.vars ≡ ring.old.trail.vars) }
    ensures analysis { analysis.new.vars ≡ analysis.old.vars }
    ensures port { IsPort (P.state port.new) }
{
    let _vars = port.vars();
    if !is_named(port, ring, c) {
        return Ok(AfterVivify::Unchanged);
    }
    match vivify(alloc, port, &mut ring.watches, &mut ring.trail, analysis, c) {
        Ok(left) => settle_left(port, ring, analysis, left),
        Err(stop) => Err(end_refused(stop)),
    }
}

/// Gives the lemma at this place its turn, and answers where the next one stands. A shorter clause goes after all others,
/// since its number is the greatest.
fn vivify_at<P: Port>(
    alloc: Global,
    port: &mut P,
    ring: &mut Ring,
    analysis: &mut Analysis,
    place: usize,
) -> Result<usize, End>
    requires resting { IsResting (P.state port.old) ring.old }
    requires listed { HasLemmas (P.state port.old) ring.old }
    requires unmixed { AreUnmixed ring.old }
    requires inside { place < length ring.old.lemmas.items }
    requires analysis { analysis.old.vars ≡ ring.old.trail.vars }
    ensures over { IfErr result (HaltsAt (P.state port.old) (P.state port.new)) }
    ensures halts { IfErr result (HaltsAtPlace (point (P.state port.old) ring.old) (P.state port.new) ring.old.lemmas.items place) }
    ensures keeps { OnOk result (KeepsOn (P.state port.old) (P.state port.new)) }
    ensures resting { OnOk result (IsResting (P.state port.new) ring.new) }
    ensures listed { OnOk result (HasLemmas (P.state port.new) ring.new) }
    ensures unmixed { OnOk result (AreUnmixed ring.new) }
    ensures took { IfOk result (TookPlace (point (P.state port.old) ring.old) (point (P.state port.new) ring.new) ring.old.lemmas.items ring.new.lemmas.items place) }
    ensures steps { OnOk result (length ring.old.trail.steps ≤ length ring.new.trail.steps) }
    ensures same { ring.new ≡ record ring.old { trail = ring.new.trail; watches = ring.new.watches; written = ring.new.written; lemmas = ring.new.lemmas } }
    ensures looks { (P.state port.new).looks ≡ (P.state port.old).looks }
    ensures nothing { OffersNothing (P.state port.old) (P.state port.new) }
    ensures vars { OnOk result (ring.new.trail.vars ≡ ring.old.trail.vars) }
    ensures analysis { analysis.new.vars ≡ analysis.old.vars }
    ensures port { IsPort (P.state port.new) }
{
    let lemma = ring.lemmas[place];
    match vivify_lemma(alloc, port, ring, analysis, lemma) {
        Ok(AfterVivify::Unchanged) => Ok(place + 1),
        Ok(AfterVivify::Replaced(shorter)) => {
            ring.lemmas.remove(place);
            ring.lemmas.push_reserved(shorter);
            Ok(place)
        }
        Ok(AfterVivify::Gone) => {
            ring.lemmas.remove(place);
            Ok(place)
        }
        Err(end) => Err(end),
    }
}

/// Gives each lemma its turn to be vivified, in order. The shorter clauses have none.
pub(crate) fn vivify_lemmas<P: Port>(
    alloc: Global,
    port: &mut P,
    ring: &mut Ring,
    analysis: &mut Analysis,
) -> Result<(), End>
    requires resting { IsResting (P.state port.old) ring.old }
    requires listed { HasLemmas (P.state port.old) ring.old }
    requires unmixed { AreUnmixed ring.old }
    requires analysis { analysis.old.vars ≡ ring.old.trail.vars }
    ensures over { IfErr result (HaltsAt (P.state port.old) (P.state port.new)) }
    ensures halts { IfErr result (HaltsVivifying (point (P.state port.old) ring.old) (P.state port.new) ring.old.lemmas.items) }
    ensures keeps { OnOk result (KeepsOn (P.state port.old) (P.state port.new)) }
    ensures resting { OnOk result (IsResting (P.state port.new) ring.new) }
    ensures listed { OnOk result (HasLemmas (P.state port.new) ring.new) }
    ensures unmixed { OnOk result (AreUnmixed ring.new) }
    ensures took { OnOk result (TookAll (point (P.state port.old) ring.old) (point (P.state port.new) ring.new) ring.old.lemmas.items ring.new.lemmas.items) }
    ensures steps { OnOk result (length ring.old.trail.steps ≤ length ring.new.trail.steps) }
    ensures same { ring.new ≡ record ring.old { trail = ring.new.trail; watches = ring.new.watches; written = ring.new.written; lemmas = ring.new.lemmas } }
    ensures looks { (P.state port.new).looks ≡ (P.state port.old).looks }
    ensures nothing { OffersNothing (P.state port.old) (P.state port.new) }
    ensures vars { OnOk result (ring.new.trail.vars ≡ ring.old.trail.vars) }
    ensures analysis { analysis.new.vars ≡ analysis.old.vars }
    ensures port { IsPort (P.state port.new) }
{
    let _vars = port.vars();
    let mut place = 0;
    for _search_step in 0..ring.lemmas.len() {
        match vivify_at(alloc, port, ring, analysis, place) {
            Ok(next) => place = next,
            Err(end) => return Err(end),
        }
    }
    Ok(())
}
