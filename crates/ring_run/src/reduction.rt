// If a restart was made: the ring gives up lemmas and imports if that is due, makes other lemmas shorter, probes literals, and then
// imports.
ghost use Rattle.std.specs.Prelude.{◌≡◌, ◌<◌, ◌≤◌, ◌+◌, ◌-◌, ◌^◌, ℕ, [], true, false, length, OnOk, IfErr};
ghost use Rattle.reduce_db.specs.Moment.{lemmas_before};
ghost use Rattle.ring_port.specs.PortState.{IsPort, lits_at};
ghost use Rattle.watch_prop.specs.Propagation.{IsQuiet};
ghost use Rattle.ring_run.specs.Ended.{IsInTime};
ghost use Rattle.ring_run.specs.Searching.{OffersNothing, OpeningSeen, KeepsOn};
ghost use Rattle.ring_run.specs.Renewal.{IsDue, HasReducedLemmas, HasReducedImports, HasReduced, AreUnmixed, AreSetApart, HasShrunk, IsIdle, HasRenewed, IsResting, HaltsAt};
ghost use Rattle.ring_run.specs.Ending.{EndsAt, end_refused};
ghost use Rattle.ring_run.specs.Halting.{HaltsDropping, HaltsReducingLemmas, HaltsReducing, HaltsShrinking, HaltsRenewing};
ghost use Rattle.ring_run.specs.Course.{AreSameOffers, HasLemmas, MayImport, Leads, KeepsLooking, KeepsOffering, IsPolling, HasPolledBy, KeepsImporting, KeepsTidy, IsInTimeBy, IsOnOrRefused, HaltsBy};

use crate::course::{Next, end_refused};
use crate::imports::import;
use crate::job::End;
use crate::lemma::tidy_up;
use crate::probing::probe_literals;
use crate::ring::Ring;
use crate::vivification::vivify_lemmas;
use analyze::Analysis;
use reduce_db::{due, reduce, tell_apart};
use ring_port::{Port, PortStop};
use std::alloc::Global;

/// Drops half of the lemmas that may be dropped, after the entry that tells it.
fn reduce_lemmas<P: Port>(alloc: Global, port: &mut P, ring: &mut Ring) -> Result<(), PortStop>
    requires import { MayImport (P.state port.old) ring.old.trail ring.old.watches ring.old.written }
    requires quiet { IsQuiet ring.old.watches (lits_at (P.state port.old)) ring.old.trail }
    requires opening { OpeningSeen (P.state port.old) }
    requires listed { HasLemmas (P.state port.old) ring.old }
    requires apart { AreSetApart (P.state port.old) ring.old }
    requires few { ring.old.reductions < 2 ^ 64 - 1 }
    requires due { IsDue ring.old }
    ensures reduced { OnOk result (HasReducedLemmas (P.state port.old) (P.state port.new) ring.old ring.new) }
    ensures halts { IfErr result (λ stop. HaltsReducingLemmas (P.state port.old) (P.state port.new) ring.old (end_refused stop)) }
    ensures ok { OnOk result (KeepsOn (P.state port.old) (P.state port.new)) }
    ensures over { IfErr result (λ stop. EndsAt (P.state port.old) (P.state port.new) (end_refused stop)) }
    ensures resting { OnOk result (IsResting (P.state port.new) ring.new) }
    ensures listed { OnOk result (HasLemmas (P.state port.new) ring.new) }
    ensures apart { OnOk result (AreSetApart (P.state port.new) ring.new) }
    ensures same { ring.new ≡ record ring.old { watches = ring.new.watches; lemmas = ring.new.lemmas; reductions = ring.new.reductions; reduced_at = ring.new.reduced_at } }
    ensures looks { (P.state port.new).looks ≡ (P.state port.old).looks }
    ensures nothing { OffersNothing (P.state port.old) (P.state port.new) }
    ensures port { IsPort (P.state port.new) }
{
    match port.note_reduce() {
        Ok(()) => {}
        Err(stop) => return Err(stop),
    }
    match reduce(
        alloc,
        port,
        &mut ring.watches,
        &ring.trail,
        &mut ring.lemmas,
    ) {
        Ok(()) => {}
        Err(stop) => return Err(stop),
    }
    ring.reductions += 1;
    ring.reduced_at = ring.learned;
    Ok(())
}

/// Drops half of the imports that may be dropped. The lemmas have been reduced, so that no import has to be kept.
fn reduce_imports<P: Port>(alloc: Global, port: &mut P, ring: &mut Ring) -> Result<(), PortStop>
    requires resting { IsResting (P.state port.old) ring.old }
    requires listed { HasLemmas (P.state port.old) ring.old }
    requires apart { AreSetApart (P.state port.old) ring.old }
    ensures reduced { OnOk result (HasReducedImports (P.state port.old) (P.state port.new) ring.old ring.new) }
    ensures halts { IfErr result (λ stop. HaltsDropping (P.state port.old) (P.state port.new) ring.old.trail.steps ring.old.imports.items (end_refused stop)) }
    ensures ok { OnOk result (KeepsOn (P.state port.old) (P.state port.new)) }
    ensures over { IfErr result (λ stop. EndsAt (P.state port.old) (P.state port.new) (end_refused stop)) }
    ensures resting { OnOk result (IsResting (P.state port.new) ring.new) }
    ensures listed { OnOk result (HasLemmas (P.state port.new) ring.new) }
    ensures unmixed { OnOk result (AreUnmixed ring.new) }
    ensures same { ring.new ≡ record ring.old { watches = ring.new.watches; imports = ring.new.imports } }
    ensures looks { (P.state port.new).looks ≡ (P.state port.old).looks }
    ensures nothing { OffersNothing (P.state port.old) (P.state port.new) }
    ensures port { IsPort (P.state port.new) }
{
    match reduce(
        alloc,
        port,
        &mut ring.watches,
        &ring.trail,
        &mut ring.imports,
    ) {
        Ok(()) => {}
        Err(stop) => return Err(stop),
    }
    Ok(())
}

/// Tells the imports apart from lemmas and start clauses, and drops half of the lemmas and half of the imports that may be
/// dropped, after the entry that tells it.
fn reduce_both<P: Port>(alloc: Global, port: &mut P, ring: &mut Ring) -> Result<(), PortStop>
    requires import { MayImport (P.state port.old) ring.old.trail ring.old.watches ring.old.written }
    requires quiet { IsQuiet ring.old.watches (lits_at (P.state port.old)) ring.old.trail }
    requires opening { OpeningSeen (P.state port.old) }
    requires listed { HasLemmas (P.state port.old) ring.old }
    requires few { ring.old.reductions < 2 ^ 64 - 1 }
    requires due { IsDue ring.old }
    ensures reduced { OnOk result (HasReduced (P.state port.old) (P.state port.new) ring.old ring.new) }
    ensures halts { IfErr result (λ stop. HaltsReducing (P.state port.old) (P.state port.new) ring.old (end_refused stop)) }
    ensures ok { OnOk result (KeepsOn (P.state port.old) (P.state port.new)) }
    ensures over { IfErr result (λ stop. EndsAt (P.state port.old) (P.state port.new) (end_refused stop)) }
    ensures resting { OnOk result (IsResting (P.state port.new) ring.new) }
    ensures listed { OnOk result (HasLemmas (P.state port.new) ring.new) }
    ensures unmixed { OnOk result (AreUnmixed ring.new) }
    ensures same { ring.new ≡ record ring.old { watches = ring.new.watches; lemmas = ring.new.lemmas; imports = ring.new.imports; reductions = ring.new.reductions; reduced_at = ring.new.reduced_at } }
    ensures looks { (P.state port.new).looks ≡ (P.state port.old).looks }
    ensures nothing { OffersNothing (P.state port.old) (P.state port.new) }
    ensures port { IsPort (P.state port.new) }
{
    let _vars = port.vars();
    let Ok(apart) = tell_apart(
        alloc,
        ring.imports.as_slice(),
        ring.lemmas.as_slice(),
        ring.last_start,
    ) else {
        return Err(PortStop::Memory);
    };
    ring.imports = apart;
    match reduce_lemmas(alloc, port, ring) {
        Ok(()) => {}
        Err(stop) => return Err(stop),
    }
    match reduce_imports(alloc, port, ring) {
        Ok(()) => {}
        Err(stop) => return Err(stop),
    }
    Ok(())
}

/// Reduces lemmas and imports, gives the lemmas that are left their turns to be vivified, probes literals, and writes the deletion lines.
fn shrink_lemmas<P: Port>(
    alloc: Global,
    port: &mut P,
    ring: &mut Ring,
    analysis: &mut Analysis,
) -> Result<(), End>
    requires import { MayImport (P.state port.old) ring.old.trail ring.old.watches ring.old.written }
    requires quiet { IsQuiet ring.old.watches (lits_at (P.state port.old)) ring.old.trail }
    requires opening { OpeningSeen (P.state port.old) }
    requires listed { HasLemmas (P.state port.old) ring.old }
    requires few { ring.old.reductions < 2 ^ 64 - 1 }
    requires due { IsDue ring.old }
    requires analysis { analysis.old.vars ≡ ring.old.trail.vars }
    ensures shrunk { OnOk result (HasShrunk (P.state port.old) (P.state port.new) ring.old ring.new) }
    ensures halts { IfErr result (HaltsShrinking (P.state port.old) (P.state port.new) ring.old) }
    ensures over { IfErr result (HaltsAt (P.state port.old) (P.state port.new)) }
    ensures keeps { OnOk result (KeepsOn (P.state port.old) (P.state port.new)) }
    ensures import { OnOk result (MayImport (P.state port.new) ring.new.trail ring.new.watches ring.new.written) }
    ensures listed { OnOk result (HasLemmas (P.state port.new) ring.new) }
    ensures tidied { OnOk result ((P.state port.new).waiting ≡ []) }
    ensures in_time { OnOk result (IsInTime (P.state port.new) 0) }
    ensures steps { OnOk result (length ring.old.trail.steps ≤ length ring.new.trail.steps) }
    ensures same { ring.new ≡ record ring.old { trail = ring.new.trail; watches = ring.new.watches; written = ring.new.written; lemmas = ring.new.lemmas; imports = ring.new.imports; reductions = ring.new.reductions; reduced_at = ring.new.reduced_at; next_probe = ring.new.next_probe } }
    ensures looks { (P.state port.new).looks ≡ (P.state port.old).looks }
    ensures nothing { OffersNothing (P.state port.old) (P.state port.new) }
    ensures vars { OnOk result (ring.new.trail.vars ≡ ring.old.trail.vars) }
    ensures analysis { analysis.new.vars ≡ analysis.old.vars }
    ensures port { IsPort (P.state port.new) }
{
    match reduce_both(alloc, port, ring) {
        Ok(()) => {}
        Err(stop) => return Err(end_refused(stop)),
    }
    match vivify_lemmas(alloc, port, ring, analysis) {
        Ok(()) => {}
        Err(end) => return Err(end),
    }
    match probe_literals(port, ring, analysis) {
        Ok(()) => {}
        Err(end) => return Err(end),
    }
    match tidy_up(port) {
        Ok(()) => Ok(()),
        Err(stop) => Err(end_refused(stop)),
    }
}

/// Reduces and vivifies the lemmas and probes literals if that is due. At level 0, if each literal has its line and nothing is left to
/// propagate.
fn shrink_due<P: Port>(
    alloc: Global,
    port: &mut P,
    ring: &mut Ring,
    analysis: &mut Analysis,
) -> Result<(), End>
    requires import { MayImport (P.state port.old) ring.old.trail ring.old.watches ring.old.written }
    requires quiet { IsQuiet ring.old.watches (lits_at (P.state port.old)) ring.old.trail }
    requires opening { OpeningSeen (P.state port.old) }
    requires listed { HasLemmas (P.state port.old) ring.old }
    requires few { ring.old.reductions < 2 ^ 64 - 1 }
    requires analysis { analysis.old.vars ≡ ring.old.trail.vars }
    ensures due { IsDue ring.old → OnOk result (HasShrunk (P.state port.old) (P.state port.new) ring.old ring.new) }
    ensures halts { IfErr result (λ end. IsDue ring.old × HaltsShrinking (P.state port.old) (P.state port.new) ring.old end) }
    ensures early { ring.old.learned - ring.old.reduced_at < lemmas_before (ring.old.reductions + 1) → IsIdle (P.state port.old) (P.state port.new) ring.old ring.new }
    ensures over { IfErr result (HaltsAt (P.state port.old) (P.state port.new)) }
    ensures keeps { OnOk result (KeepsOn (P.state port.old) (P.state port.new)) }
    ensures import { OnOk result (MayImport (P.state port.new) ring.new.trail ring.new.watches ring.new.written) }
    ensures listed { OnOk result (HasLemmas (P.state port.new) ring.new) }
    ensures tidied { (P.state port.old).waiting ≡ [] → OnOk result ((P.state port.new).waiting ≡ []) }
    ensures in_time { OnOk result (IsInTime (P.state port.new) 0) }
    ensures steps { OnOk result (length ring.old.trail.steps ≤ length ring.new.trail.steps) }
    ensures same { ring.new ≡ record ring.old { trail = ring.new.trail; watches = ring.new.watches; written = ring.new.written; lemmas = ring.new.lemmas; imports = ring.new.imports; reductions = ring.new.reductions; reduced_at = ring.new.reduced_at; next_probe = ring.new.next_probe } }
    ensures looks { (P.state port.new).looks ≡ (P.state port.old).looks }
    ensures nothing { OffersNothing (P.state port.old) (P.state port.new) }
    ensures vars { OnOk result (ring.new.trail.vars ≡ ring.old.trail.vars) }
    ensures analysis { analysis.new.vars ≡ analysis.old.vars }
    ensures port { IsPort (P.state port.new) }
{
    let _vars = port.vars();
    if !due(ring.learned - ring.reduced_at, ring.reductions + 1) {
        return Ok(());
    }
    shrink_lemmas(alloc, port, ring, analysis)
}

/// Reduces and vivifies the lemmas and probes literals if that is due, and imports. No import is yet to be then.
pub(crate) fn reduce_vivify_import<P: Port>(
    alloc: Global,
    port: &mut P,
    ring: &mut Ring,
    analysis: &mut Analysis,
) -> Next
    requires import { MayImport (P.state port.old) ring.old.trail ring.old.watches ring.old.written }
    requires quiet { IsQuiet ring.old.watches (lits_at (P.state port.old)) ring.old.trail }
    requires opening { OpeningSeen (P.state port.old) }
    requires polling { IsPolling (P.state port.old) ring.old }
    requires listed { HasLemmas (P.state port.old) ring.old }
    requires few { ring.old.reductions < 2 ^ 64 - 1 }
    requires import_due { ring.old.import_due ≡ true }
    requires analysis { analysis.old.vars ≡ ring.old.trail.vars }
    ensures leads { Leads (P.state port.old) ring.old (P.state port.new) ring.new result }
    ensures refused { IsOnOrRefused result }
    ensures halts { HaltsBy (HaltsRenewing (P.state port.old) (P.state port.new) ring.old) result }
    ensures settled { result ≡ Next.Go → ring.new.import_due ≡ false }
    ensures renewed { result ≡ Next.Go → HasRenewed (P.state port.old) (P.state port.new) ring.old ring.new }
    ensures unlooked { (P.state port.new).looks ≡ (P.state port.old).looks }
    ensures undrawn { result ≡ Next.Go → (P.state port.new).found ≡ (P.state port.old).found }
    ensures steps { result ≡ Next.Go → length ring.old.trail.steps ≤ length ring.new.trail.steps }
    ensures polls { HasPolledBy (P.state port.new) ring.new result }
    ensures imports { KeepsImporting (P.state port.old) ring.old (P.state port.new) ring.new result }
    ensures tidied { KeepsTidy (P.state port.old) (P.state port.new) result }
    ensures in_time { IsInTimeBy (P.state port.new) ring.new result }
    ensures offering { KeepsOffering (P.state port.old) ring.old (P.state port.new) ring.new }
    ensures offers { AreSameOffers ring.old ring.new }
    ensures looks { KeepsLooking (P.state port.old) ring.old (P.state port.new) ring.new result }
    ensures listed { result ≡ Next.Go → HasLemmas (P.state port.new) ring.new }
    ensures learned { ring.new.learned ≡ ring.old.learned }
    ensures restarts { ring.new.restarts ≡ ring.old.restarts }
    ensures decider { ring.new.decider ≡ ring.old.decider }
    ensures analysis { analysis.new.vars ≡ analysis.old.vars }
    ensures port { IsPort (P.state port.new) }
{
    match shrink_due(alloc, port, ring, analysis) {
        Ok(()) => {}
        Err(end) => return Next::Finish(end),
    }
    import(port, ring, analysis)
}
