// Learning from a conflict: the lemma is learned and offered, and the trail goes back.
ghost use Rattle.std.specs.Prelude.{◌≡◌, ◌<◌, ◌≤◌, ◌+◌, ◌++◌, ◌-◌, ◌^◌, [], true, length, None, Some, IfSome, IsSome, IfOk, IfErr, OnOk};
ghost use Rattle.std.specs.Option.{option_to_list};
ghost use Rattle.rup_model.specs.Rup.{rup};
ghost use Rattle.ring_port.specs.PortState.{IsPort, held_at, known, lits_at};
ghost use Rattle.ring_port.specs.Port.{AreHints, IsClause, IsFreshClause, Refused, is_usable};
ghost use Rattle.ring_port.specs.Log.{KeepsLog};
ghost use Rattle.ring_port.specs.Deleting.{TidiedUpTo, TidiedSome};
ghost use Rattle.ring_trail.specs.TrailData.{TrailData, IsTrail};
ghost use Rattle.watch_prop.specs.WatchData.{attached};
ghost use Rattle.watch_prop.specs.Watched.{Watched};
ghost use Rattle.watch_prop.specs.Propagation.{IsConflict};
ghost use Rattle.ring_run.specs.Strategy.{Decides, IsPaced};
ghost use Rattle.ring_run.specs.Searching.{CanDraw, OffersNothing, HasLent, IsAsserting, HoldsByGlue, OnlyWrote, KeepsOn};
ghost use Rattle.ring_run.specs.Ending.{EndsAt, end_refused};
ghost use Rattle.ring_run.specs.Course.{AreSameOffers, IsOffering, InSearch, HasLemmas, Leads, CanAssert, Asserted, Restarted, HasLeft, KeepsLooking, KeepsPolling, KeepsImporting, HasTidied, KeepsInTime, SumsUp, LearnsFrom};
ghost use Rattle.ring_run.specs.Learning.{HasShared, HasFinished, CameOfDraw};

use crate::course::{Next, end_refused, refute};
use crate::job::End;
use crate::ring::{Ring, go_back};
use crate::variables::bump_analyzed;
use analyze::{Analysis, Conclusion};
use ring_port::{Drawn, Port, PortStop, class_of};
use ring_trail::Trail;
use sat_words::{Cref, Lit};
use std::alloc::AllocError;
use watch_prop::Watches;

/// Attaches a lemma that is held, and lists it. A unit has no address, and neither is done.
fn attach_lemma<P: Port>(
    port: &mut P,
    trail: &Trail,
    watches: &mut Watches,
    lemmas: &mut Vec<Cref>,
    address: Option<Cref>,
) -> Result<(), AllocError>
    requires held { IfSome address (λ c. IsSome (held_at (P.state port.old) c.address)) }
    requires vars { (P.state port.old).vars ≡ watches.old.vars }
    ensures same { P.state port.new ≡ P.state port.old }
    ensures attached { OnOk result (attached watches.new ≡ attached watches.old ++ option_to_list address) }
    ensures watched { OnOk result ((t : TrailData) → Watched watches.old (lits_at (P.state port.old)) t → Watched watches.new (lits_at (P.state port.old)) t) }
    ensures listed { OnOk result (lemmas.new.items ≡ lemmas.old.items ++ option_to_list address) }
{
    let Some(clause) = address else {
        return Ok(());
    };
    watches.attach(port, trail, clause)?;
    lemmas.push(clause)?;
    Ok(())
}

/// Goes back, attaches the lemma, and makes its first literal true, which is the only one that isn't false there.
fn assert_lemma<P: Port>(
    port: &mut P,
    ring: &mut Ring,
    lits: &[Lit],
    back: u32,
    address: Option<Cref>,
) -> Result<(), AllocError>
    requires held { IfSome address (λ c. IsSome (held_at (P.state port.old) c.address)) }
    requires vars { (P.state port.old).vars ≡ ring.old.watches.vars }
    requires decides { length ring.old.decider.active ≡ ring.old.trail.vars }
    requires can { CanAssert ring.old.trail lits.now back }
    ensures same { P.state port.new ≡ P.state port.old }
    ensures asserted { OnOk result (Asserted (P.state port.old) ring.old ring.new lits.now back address) }
    ensures learned { ring.new.learned ≡ ring.old.learned }
    ensures restarts { ring.new.restarts ≡ ring.old.restarts }
    ensures active { ring.new.decider.active ≡ ring.old.decider.active }
    ensures import_due { ring.new.import_due ≡ ring.old.import_due }
    ensures offers { AreSameOffers ring.old ring.new }
{
    go_back(ring, back);
    attach_lemma(
        port,
        &ring.trail,
        &mut ring.watches,
        &mut ring.lemmas,
        address,
    )?;
    ring.trail.assign(lits[0], address);
    Ok(())
}

/// Restarts: goes back to level 0, if the lemma asks for nothing, and attaches it.
fn restart<P: Port>(port: &mut P, ring: &mut Ring, address: Option<Cref>) -> Result<(), AllocError>
    requires held { IfSome address (λ c. IsSome (held_at (P.state port.old) c.address)) }
    requires vars { (P.state port.old).vars ≡ ring.old.watches.vars }
    requires decides { length ring.old.decider.active ≡ ring.old.trail.vars }
    requires trail { IsTrail ring.old.trail }
    ensures same { P.state port.new ≡ P.state port.old }
    ensures restarted { OnOk result (Restarted (P.state port.old) ring.old ring.new address) }
    ensures learned { ring.new.learned ≡ ring.old.learned }
    ensures restarts { ring.new.restarts ≡ ring.old.restarts }
    ensures active { ring.new.decider.active ≡ ring.old.decider.active }
    ensures import_due { ring.new.import_due ≡ ring.old.import_due }
    ensures offers { AreSameOffers ring.old ring.new }
{
    go_back(ring, 0);
    attach_lemma(
        port,
        &ring.trail,
        &mut ring.watches,
        &mut ring.lemmas,
        address,
    )?;
    Ok(())
}

/// Goes back after a lemma: to its level, or to level 0 if a restart is due.
fn leave_conflict<P: Port>(
    port: &mut P,
    ring: &mut Ring,
    lits: &[Lit],
    back: u32,
    address: Option<Cref>,
) -> Result<(), AllocError>
    requires held { IfSome address (λ c. IsSome (held_at (P.state port.old) c.address)) }
    requires vars { (P.state port.old).vars ≡ ring.old.watches.vars }
    requires decides { length ring.old.decider.active ≡ ring.old.trail.vars }
    requires can { CanAssert ring.old.trail lits.now back }
    ensures same { P.state port.new ≡ P.state port.old }
    ensures left { OnOk result (HasLeft (P.state port.old) ring.old ring.new lits.now back address) }
    ensures learned { ring.new.learned ≡ ring.old.learned }
    ensures restarts { ring.new.restarts ≡ ring.old.restarts }
    ensures active { ring.new.decider.active ≡ ring.old.decider.active }
    ensures offers { AreSameOffers ring.old ring.new }
    ensures import_due { ring.new.import_due ≡ ring.old.import_due }
    ensures low { OnOk result (ring.old.import_due ≡ true → ring.new.trail.level ≡ 0) }
{
    if ring.import_due && back != 0 {
        return restart(port, ring, address);
    }
    assert_lemma(port, ring, lits, back, address)
}

/// Offers a lemma that has a class to the other rings, and counts it. A unit has no address, and is told by its line.
fn offer_lemma<P: Port>(port: &mut P, ring: &mut Ring, address: Option<Cref>)
    requires held { IfSome address (λ c. IsSome (held_at (P.state port.old) c.address)) }
    requires last { IfSome address (λ c. (P.state port.old).last ≡ Some c.address) }
    requires few { ring.old.exported < 2 ^ 64 - 1 }
    requires port { IsPort (P.state port.old) }
    ensures lent { HasLent (P.state port.old) (P.state port.new) address ring.old.exported ring.old.offered ring.new.exported ring.new.offered }
    ensures same { ring.new ≡ record ring.old { exported = ring.new.exported; offered = ring.new.offered } }
    ensures log { KeepsLog (P.state port.old) (P.state port.new) }
    ensures port { IsPort (P.state port.new) }
{
    let Some(clause) = address else {
        return;
    };
    let shape = port.shape(clause);
    if class_of(shape.size, shape.glue).is_none() {
        return;
    }
    let places = port.offer(clause);
    ring.exported += 1;
    ring.offered = ring.offered.saturating_add(places);
}

/// Writes the deletion lines of what an offer brought back.
pub(crate) fn tidy_up<P: Port>(port: &mut P) -> Result<(), PortStop>
    requires refused { (P.state port.old).refused ≡ None }
    requires port { IsPort (P.state port.old) }
    ensures ok { OnOk result (KeepsOn (P.state port.old) (P.state port.new)) }
    ensures over { IfErr result (λ stop. EndsAt (P.state port.old) (P.state port.new) (end_refused stop)) }
    ensures wrote { OnOk result (OnlyWrote (P.state port.old) (P.state port.new)) }
    ensures seen { OnOk result ((P.state port.new).seen ≡ (P.state port.old).seen) }
    ensures tidied { OnOk result ((P.state port.new).waiting ≡ []) }
    ensures lines { OnOk result (TidiedUpTo (P.state port.old) (P.state port.new) (length (P.state port.old).waiting)) }
    ensures some { IfErr result (TidiedSome (P.state port.old) (P.state port.new)) }
    ensures held { (P.state port.new).held ≡ (P.state port.old).held }
    ensures looks { (P.state port.new).looks ≡ (P.state port.old).looks }
    ensures nothing { OffersNothing (P.state port.old) (P.state port.new) }
    ensures port { IsPort (P.state port.new) }
{
    port.tidy()
}

/// Learns a lemma with the ticket in hand and its hints, counts it, notes its glue for the restarts, and offers it to the other
/// rings.
fn share_lemma<P: Port>(
    port: &mut P,
    ring: &mut Ring,
    lits: &[Lit],
    glue: u32,
    hints: &[u64],
) -> Result<Option<Cref>, PortStop>
    requires ticket { (P.state port.old).ticket ≡ true }
    requires usable { is_usable (P.state port.old).refused ≡ true }
    requires some { 1 ≤ length lits.now }
    requires clause { IsClause (P.state port.old).vars lits.now }
    requires rup { rup (known (P.state port.old)) lits.now ≡ true }
    requires fresh { IsFreshClause (P.state port.old) lits.now }
    requires hints { AreHints (P.state port.old) lits.now hints.now }
    requires below { ring.old.learned < 2 ^ 64 - 1 }
    requires noted { ring.old.restarts.count ≡ ring.old.learned }
    requires few { ring.old.exported ≤ ring.old.learned }
    ensures shared { IfOk result (λ address. HasShared (P.state port.old) (P.state port.new) ring.old ring.new lits.now glue address) }
    ensures refused { IfErr result (λ stop. Refused (P.state port.old) (P.state port.new) stop × (ring.new ≡ ring.old)) }
    ensures log { KeepsLog (P.state port.old) (P.state port.new) }
    ensures port { IsPort (P.state port.new) }
{
    let address = port.learn(lits, glue, hints)?;
    ring.learned += 1;
    ring.restarts.note(glue);
    offer_lemma(port, ring, address);
    Ok(address)
}

/// Asks whether a restart is due, deletes what waits, and leaves the conflict.
fn finish_conflict<P: Port>(
    port: &mut P,
    ring: &mut Ring,
    lits: &[Lit],
    back: u32,
    address: Option<Cref>,
) -> Next
    requires refused { (P.state port.old).refused ≡ None }
    requires port { IsPort (P.state port.old) }
    requires held { IfSome address (λ c. IsSome (held_at (P.state port.old) c.address)) }
    requires vars { (P.state port.old).vars ≡ ring.old.watches.vars }
    requires decides { length ring.old.decider.active ≡ ring.old.trail.vars }
    requires can { CanAssert ring.old.trail lits.now back }
    ensures finished { HasFinished (P.state port.old) (P.state port.new) ring.old ring.new lits.now back address result }
    ensures port { IsPort (P.state port.new) }
{
    ring.import_due = ring.restarts.due();
    match tidy_up(port) {
        Ok(()) => {}
        Err(stop) => return Next::Finish(end_refused(stop)),
    }
    match leave_conflict(port, ring, lits, back, address) {
        Ok(()) => Next::Go,
        Err(_) => Next::Finish(End::Memory),
    }
}

/// Draws a ticket, learns a lemma with it, and goes back to where it forces its first literal, or to level 0. Nothing waits for its
/// deletion then. If all tickets have been drawn nothing is learned, and that is the end.
fn learn_lemma<P: Port>(
    port: &mut P,
    ring: &mut Ring,
    lits: &[Lit],
    back: u32,
    glue: u32,
    hints: &[u64],
) -> Next
    requires search { InSearch (P.state port.old) ring.old }
    requires draws { CanDraw (P.state port.old) ring.old.learned }
    requires decides { Decides (P.state port.old) ring.old.decider }
    requires paced { IsPaced ring.old.restarts ring.old.learned }
    requires offering { IsOffering (P.state port.old) ring.old }
    requires lemma { IsAsserting (P.state port.old) ring.old.trail lits.now back }
    requires hints { AreHints (P.state port.old) lits.now hints.now }
    ensures comes { CameOfDraw (P.state port.old) (P.state port.new) ring.old ring.new lits.now back glue result }
    ensures port { IsPort (P.state port.new) }
{
    match port.draw() {
        Drawn::Ticket => {}
        Drawn::Gone => return Next::Finish(End::Spent),
    }
    let address = match share_lemma(port, ring, lits, glue, hints) {
        Ok(address) => address,
        Err(stop) => return Next::Finish(end_refused(stop)),
    };
    finish_conflict(port, ring, lits, back, address)
}

/// Learns from a conflict.
pub(crate) fn learn_from<P: Port>(
    port: &mut P,
    ring: &mut Ring,
    analysis: &mut Analysis,
    conflict: Cref,
) -> Next
    requires search { InSearch (P.state port.old) ring.old }
    requires draws { CanDraw (P.state port.old) ring.old.learned }
    requires decides { Decides (P.state port.old) ring.old.decider }
    requires paced { IsPaced ring.old.restarts ring.old.learned }
    requires offering { IsOffering (P.state port.old) ring.old }
    requires listed { HasLemmas (P.state port.old) ring.old }
    requires vars { analysis.old.vars ≡ ring.old.trail.vars }
    requires conflict { IsConflict ring.old.watches (lits_at (P.state port.old)) ring.old.trail conflict }
    ensures leads { Leads (P.state port.old) ring.old (P.state port.new) ring.new result }
    ensures drawn { result ≡ Next.Go → (P.state port.old).found < (P.state port.new).found }
    ensures learns { LearnsFrom (P.state port.old) (P.state port.new) ring.old ring.new conflict analysis.new.lits result }
    ensures tidied { HasTidied (P.state port.new) result }
    ensures listed { result ≡ Next.Go → HasLemmas (P.state port.new) ring.new }
    ensures stored { HoldsByGlue (P.state port.old) (P.state port.new) ring.old.trail.steps }
    ensures looks { KeepsLooking (P.state port.old) ring.old (P.state port.new) ring.new result }
    ensures paced { IsPaced ring.new.restarts ring.new.learned }
    ensures polls { KeepsPolling (P.state port.old) ring.old (P.state port.new) ring.new result }
    ensures imports { KeepsImporting (P.state port.old) ring.old (P.state port.new) ring.new result }
    ensures above { result ≡ Next.Go → 0 < ring.old.trail.level }
    ensures in_time { KeepsInTime (P.state port.old) ring.old (P.state port.new) ring.new result }
    ensures sums { SumsUp ring.new.restarts }
    ensures offering { IsOffering (P.state port.new) ring.new }
    ensures odd { ring.new.restarts.odd ≡ ring.old.restarts.odd }
    ensures active { ring.new.decider.active ≡ ring.old.decider.active }
    ensures vars { analysis.new.vars ≡ analysis.old.vars }
    ensures port { IsPort (P.state port.new) }
{
    match analysis.analyze(port, &ring.trail, conflict) {
        Conclusion::Empty => Next::Finish(refute(port, analysis.hints())),
        Conclusion::Lemma { back, glue } => {
            let analyzed = analysis.analyzed();
            if bump_analyzed(&mut ring.decider, analyzed, &mut ring.bumps).is_err() {
                return Next::Finish(End::Memory);
            }
            learn_lemma(port, ring, analysis.lits(), back, glue, analysis.hints())
        }
    }
}
