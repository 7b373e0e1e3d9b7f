// What a ring takes from the others at level 0: their units, and the clauses that they have put for it.
ghost use Rattle.std.specs.Prelude.{◌≡◌, ◌≢◌, ◌<◌, ◌≤◌, ◌+◌, ◌++◌, ◌∷◌, [], ◌*◌, ◌-◌, ◌^◌, ℕ, min, true, false, length, OnOk};
ghost use Rattle.ring_port.specs.PortState.{IsPort, one_more};
ghost use Rattle.ring_port.specs.Exchange.{other_rings};
ghost use Rattle.ring_run.specs.Ended.{places_of, slots_of, import_slots, IsInTime};
ghost use Rattle.ring_run.specs.Searching.{KeepsOn, OnlyPolled};
ghost use Rattle.ring_run.specs.Renewal.{TookSlots, PolledSome, TookImport};
ghost use Rattle.ring_run.specs.Halting.{HaltsImporting};
ghost use Rattle.ring_run.specs.Course.{AreSameOffers, InSearch, KeepsLemmas, MayImport, Leads, KeepsLooking, KeepsOffering, IsPolling, HasPolledBy, KeepsImporting, KeepsTidy, IsInTimeBy, IsOnOrRefused, HaltsBy};

use crate::course::{Next, refute};
use crate::job::End;
use crate::ring::Ring;
use crate::units::{Units, take_units};
use analyze::Analysis;
use ring_port::Port;
use std::alloc::AllocError;

/// The classes of clauses that rings put for each other.
const CLASSES: u8 = 4;

/// Takes the clause that another ring has put into a slot, if there is one, and attaches and lists it.
fn take_slot<P: Port>(
    port: &mut P,
    ring: &mut Ring,
    from: u32,
    class: u8,
    place: u32,
) -> Result<(), AllocError>
    requires search { InSearch (P.state port.old) ring.old }
    requires level { ring.old.trail.level ≡ 0 }
    requires other { from ≢ (P.state port.old).ring }
    requires inside { from < (P.state port.old).rings }
    requires class { class ≤ 3 }
    requires place { place < (P.state port.old).depth }
    requires bounded { (P.state port.old).polled ≤ 2 ^ 64 - 1 }
    ensures keeps { KeepsOn (P.state port.old) (P.state port.new) }
    ensures search { OnOk result (InSearch (P.state port.new) ring.new) }
    ensures polled { OnOk result ((P.state port.new).polled ≡ one_more (P.state port.old).polled) }
    ensures few { (P.state port.new).polled ≤ one_more (P.state port.old).polled }
    ensures took { OnOk result (TookSlots (P.state port.old) (P.state port.new) ring.old ring.new (record { ring = from; class = class; place = place } ∷ [])) }
    ensures some { PolledSome (P.state port.old) (P.state port.new) (record { ring = from; class = class; place = place } ∷ []) }
    ensures only { OnlyPolled (P.state port.old) (P.state port.new) }
    ensures same { ring.new ≡ record ring.old { watches = ring.new.watches; imports = ring.new.imports } }
    ensures port { IsPort (P.state port.new) }
{
    let Ok(taken) = port.poll(from, class, place) else {
        return Err(AllocError);
    };
    let Some(clause) = taken else {
        return Ok(());
    };
    ring.watches.attach(port, &ring.trail, clause)?;
    ring.imports.push(clause)?;
    Ok(())
}

/// Takes what another ring has put of a class, place by place.
fn take_class<P: Port>(
    port: &mut P,
    ring: &mut Ring,
    from: u32,
    class: u8,
) -> Result<(), AllocError>
    requires search { InSearch (P.state port.old) ring.old }
    requires level { ring.old.trail.level ≡ 0 }
    requires other { from ≢ (P.state port.old).ring }
    requires inside { from < (P.state port.old).rings }
    requires class { class ≤ 3 }
    requires bounded { (P.state port.old).polled ≤ 2 ^ 64 - 1 }
    ensures keeps { KeepsOn (P.state port.old) (P.state port.new) }
    ensures search { OnOk result (InSearch (P.state port.new) ring.new) }
    ensures polled { OnOk result ((P.state port.new).polled ≡ min ((P.state port.old).polled + (P.state port.old).depth) (2 ^ 64 - 1)) }
    ensures few { (P.state port.new).polled ≤ min ((P.state port.old).polled + (P.state port.old).depth) (2 ^ 64 - 1) }
    ensures took { OnOk result (TookSlots (P.state port.old) (P.state port.new) ring.old ring.new (places_of (P.state port.old).depth from class)) }
    ensures some { PolledSome (P.state port.old) (P.state port.new) (places_of (P.state port.old).depth from class) }
    ensures only { OnlyPolled (P.state port.old) (P.state port.new) }
    ensures same { ring.new ≡ record ring.old { watches = ring.new.watches; imports = ring.new.imports } }
    ensures port { IsPort (P.state port.new) }
{
    for place in 0..port.depth() {
        match take_slot(port, ring, from, class, place) {
            Ok(()) => {}
            Err(refused) => return Err(refused),
        }
    }
    Ok(())
}

/// Takes what another ring has put, class by class.
fn take_from<P: Port>(port: &mut P, ring: &mut Ring, from: u32) -> Result<(), AllocError>
    requires search { InSearch (P.state port.old) ring.old }
    requires level { ring.old.trail.level ≡ 0 }
    requires other { from ≢ (P.state port.old).ring }
    requires inside { from < (P.state port.old).rings }
    requires bounded { (P.state port.old).polled ≤ 2 ^ 64 - 1 }
    ensures keeps { KeepsOn (P.state port.old) (P.state port.new) }
    ensures search { OnOk result (InSearch (P.state port.new) ring.new) }
    ensures polled { OnOk result ((P.state port.new).polled ≡ min ((P.state port.old).polled + 4 * (P.state port.old).depth) (2 ^ 64 - 1)) }
    ensures few { (P.state port.new).polled ≤ min ((P.state port.old).polled + 4 * (P.state port.old).depth) (2 ^ 64 - 1) }
    ensures took { OnOk result (TookSlots (P.state port.old) (P.state port.new) ring.old ring.new (slots_of (P.state port.old).depth from)) }
    ensures some { PolledSome (P.state port.old) (P.state port.new) (slots_of (P.state port.old).depth from) }
    ensures only { OnlyPolled (P.state port.old) (P.state port.new) }
    ensures same { ring.new ≡ record ring.old { watches = ring.new.watches; imports = ring.new.imports } }
    ensures port { IsPort (P.state port.new) }
{
    for class in 0..CLASSES {
        match take_class(port, ring, from, class) {
            Ok(()) => {}
            Err(refused) => return Err(refused),
        }
    }
    Ok(())
}

/// Takes what the other rings have put, ring by ring.
fn take_clauses<P: Port>(port: &mut P, ring: &mut Ring) -> Result<(), AllocError>
    requires search { InSearch (P.state port.old) ring.old }
    requires level { ring.old.trail.level ≡ 0 }
    requires place { ring.old.place ≡ record { ring = (P.state port.old).ring; rings = (P.state port.old).rings } }
    requires bounded { (P.state port.old).polled ≤ 2 ^ 64 - 1 }
    ensures keeps { KeepsOn (P.state port.old) (P.state port.new) }
    ensures search { OnOk result (InSearch (P.state port.new) ring.new) }
    ensures polled { OnOk result ((P.state port.new).polled ≡ min ((P.state port.old).polled + 4 * (P.state port.old).depth * length (other_rings (P.state port.old))) (2 ^ 64 - 1)) }
    ensures few { (P.state port.new).polled ≤ min ((P.state port.old).polled + 4 * (P.state port.old).depth * length (other_rings (P.state port.old))) (2 ^ 64 - 1) }
    ensures took { OnOk result (TookSlots (P.state port.old) (P.state port.new) ring.old ring.new (import_slots (P.state port.old))) }
    ensures some { PolledSome (P.state port.old) (P.state port.new) (import_slots (P.state port.old)) }
    ensures only { OnlyPolled (P.state port.old) (P.state port.new) }
    ensures same { ring.new ≡ record ring.old { watches = ring.new.watches; imports = ring.new.imports } }
    ensures port { IsPort (P.state port.new) }
{
    for from in 0..ring.place.rings {
        if from == ring.place.ring {
            continue;
        }
        match take_from(port, ring, from) {
            Ok(()) => {}
            Err(refused) => return Err(refused),
        }
    }
    Ok(())
}

/// Takes what the others have: units, and then clauses, which are attached and listed. No import is yet to be then. A unit that is
/// false refutes the clauses.
pub(crate) fn import<P: Port>(port: &mut P, ring: &mut Ring, analysis: &mut Analysis) -> Next
    requires import { MayImport (P.state port.old) ring.old.trail ring.old.watches ring.old.written }
    requires polling { IsPolling (P.state port.old) ring.old }
    requires import_due { ring.old.import_due ≡ true }
    requires analysis { analysis.old.vars ≡ ring.old.trail.vars }
    ensures leads { Leads (P.state port.old) ring.old (P.state port.new) ring.new result }
    ensures refused { IsOnOrRefused result }
    ensures halts { HaltsBy (HaltsImporting (P.state port.old) (P.state port.new)) result }
    ensures took { result ≡ Next.Go → TookImport (P.state port.old) (P.state port.new) ring.old ring.new }
    ensures settled { result ≡ Next.Go → ring.new.import_due ≡ false }
    ensures steps { result ≡ Next.Go → length ring.old.trail.steps ≤ length ring.new.trail.steps }
    ensures polls { HasPolledBy (P.state port.new) ring.new result }
    ensures imports { KeepsImporting (P.state port.old) ring.old (P.state port.new) ring.new result }
    ensures tidied { KeepsTidy (P.state port.old) (P.state port.new) result }
    ensures in_time { IsInTime (P.state port.old) ring.old.restarts.since → IsInTimeBy (P.state port.new) ring.new result }
    ensures offering { KeepsOffering (P.state port.old) ring.old (P.state port.new) ring.new }
    ensures offers { AreSameOffers ring.old ring.new }
    ensures looks { KeepsLooking (P.state port.old) ring.old (P.state port.new) ring.new result }
    ensures unlooked { (P.state port.new).looks ≡ (P.state port.old).looks }
    ensures learned { ring.new.learned ≡ ring.old.learned }
    ensures restarts { ring.new.restarts ≡ ring.old.restarts }
    ensures listed { result ≡ Next.Go → KeepsLemmas (P.state port.old) ring.old (P.state port.new) ring.new }
    ensures decider { ring.new.decider ≡ ring.old.decider }
    ensures analysis { analysis.new.vars ≡ analysis.old.vars }
    ensures port { IsPort (P.state port.new) }
{
    match take_units(port, &mut ring.trail) {
        Units::Opposed(unit) => {
            analysis.trace_unit(port, &ring.trail, unit);
            return Next::Finish(refute(port, analysis.hints()));
        }
        Units::True => {}
    }
    match take_clauses(port, ring) {
        Ok(()) => {}
        Err(_) => return Next::Finish(End::Memory),
    }
    ring.import_due = false;
    Next::Go
}
