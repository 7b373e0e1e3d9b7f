// Units: those that come from outside, and those that propagation makes true for good.
ghost use Rattle.std.specs.Prelude.{◌≡◌, ◌≤◌, ◌<◌, ◌+◌, ℕ, List, None, OnOk, IfErr, length};
ghost use Rattle.ring_port.specs.PortState.{IsPort, one_more};
ghost use Rattle.ring_trail.specs.TrailData.{HasGrown, IsTrail, reason_at};
ghost use Rattle.sat_words.specs.declared.shared.Cref.{Cref};
ghost use Rattle.watch_prop.specs.WatchData.{WatchData, Lits};
ghost use Rattle.watch_prop.specs.Watched.{Watched};
ghost use Rattle.watch_prop.specs.Propagation.{HasReasons};
ghost use Rattle.ring_run.specs.Searching.{AddedSeen, OffersNothing, OnlySaw, Stands, AreTaken, AreTold, UnitsSeen, OnlyWrote, ToldUnits, KeepsOn};
ghost use Rattle.ring_run.specs.Ending.{EndsAt, HaltsTelling, end_refused};

use analyze::Analysis;
use ring_port::{Port, PortStop};
use ring_trail::Trail;
use sat_words::Lit;

/// Whether the units that came can all be true.
#[derive(Clone, Copy)]
pub(crate) enum Units {
    /// This one is false at level 0.
    Opposed(Lit),
    /// Each is true.
    True,
}

/// Makes the units true that come from outside. The trail is at level 0.
pub(crate) fn take_units<P: Port>(port: &mut P, trail: &mut Trail) -> Units
    requires level { trail.old.level ≡ 0 }
    requires trail { IsTrail trail.old }
    requires port { IsPort (P.state port.old) }
    requires stands { Stands (P.state port.old) trail.old }
    requires added { AddedSeen (P.state port.old) }
    ensures saw { OnlySaw (P.state port.old) (P.state port.new) }
    ensures grown { HasGrown trail.old trail.new }
    ensures taken { AreTaken (P.state port.new) trail.new result }
    ensures caught_up { result ≡ Units.True → (P.state port.new).caught_up ≡ one_more (P.state port.old).caught_up }
    ensures keeps { KeepsOn (P.state port.old) (P.state port.new) }
    ensures reasons { (cs : List Cref) → HasReasons cs (P.state port.old) trail.old.steps → HasReasons cs (P.state port.new) trail.new.steps }
    ensures bare { (p : ℕ) → length trail.old.steps ≤ p → p < length trail.new.steps → reason_at trail.new.steps p ≡ None }
    ensures watched { (w : WatchData) (lits : Lits) → Watched w lits trail.old → Watched w lits trail.new }
    ensures trail { IsTrail trail.new }
    ensures port { IsPort (P.state port.new) }
{
    while let Some(lit) = port.next_unit() {
        match trail.truth(lit) {
            Some(true) => {}
            Some(false) => return Units::Opposed(lit),
            None => trail.assign(lit, None),
        }
    }
    Units::True
}

/// Writes a unit's line for the literal at this place, if it has a reason: one without is a unit that was given or learned,
/// which is seen already and gets no line. Its hints are found anew for the line.
fn write_unit<P: Port>(
    port: &mut P,
    trail: &Trail,
    analysis: &mut Analysis,
    place: u32,
) -> Result<(), PortStop>
    requires level { trail.now.level ≡ 0 }
    requires trail { IsTrail trail.now }
    requires place { place < length trail.now.steps }
    requires stands { Stands (P.state port.old) trail.now }
    requires told { AreTold (P.state port.old) trail.now place }
    requires units { UnitsSeen (P.state port.old) }
    requires port { IsPort (P.state port.old) }
    requires refused { (P.state port.old).refused ≡ None }
    requires analysis { analysis.old.vars ≡ trail.now.vars }
    ensures ok { OnOk result (KeepsOn (P.state port.old) (P.state port.new)) }
    ensures over { IfErr result (λ stop. EndsAt (P.state port.old) (P.state port.new) (end_refused stop)) }
    ensures halts { IfErr result (λ stop. HaltsTelling (P.state port.old) (P.state port.new) trail.now.steps (end_refused stop)) }
    ensures stands { OnOk result (Stands (P.state port.new) trail.now) }
    ensures told { OnOk result (AreTold (P.state port.new) trail.now (place + 1)) }
    ensures units { OnOk result (UnitsSeen (P.state port.new)) }
    ensures wrote { OnOk result (OnlyWrote (P.state port.old) (P.state port.new)) }
    ensures lines { OnOk result (ToldUnits (P.state port.old) (P.state port.new)) }
    ensures held { (P.state port.new).held ≡ (P.state port.old).held }
    ensures looks { (P.state port.new).looks ≡ (P.state port.old).looks }
    ensures waiting { (P.state port.new).waiting ≡ (P.state port.old).waiting }
    ensures nothing { OffersNothing (P.state port.old) (P.state port.new) }
    ensures analysis { analysis.new.vars ≡ analysis.old.vars }
    ensures port { IsPort (P.state port.new) }
{
    if trail.reason_at(place).is_none() {
        return Ok(());
    }
    let lit = trail.lit_at(place);
    analysis.trace_literal(port, trail, &[lit], place);
    port.unit(lit, analysis.hints())
}

/// Writes a unit's line for each literal from the place `written` on that has a reason. The trail is at level 0.
pub(crate) fn write_units<P: Port>(
    port: &mut P,
    trail: &Trail,
    analysis: &mut Analysis,
    written: u32,
) -> Result<(), PortStop>
    requires level { trail.now.level ≡ 0 }
    requires trail { IsTrail trail.now }
    requires stands { Stands (P.state port.old) trail.now }
    requires told { AreTold (P.state port.old) trail.now written }
    requires units { UnitsSeen (P.state port.old) }
    requires port { IsPort (P.state port.old) }
    requires refused { (P.state port.old).refused ≡ None }
    requires analysis { analysis.old.vars ≡ trail.now.vars }
    ensures ok { OnOk result (KeepsOn (P.state port.old) (P.state port.new)) }
    ensures over { IfErr result (λ stop. EndsAt (P.state port.old) (P.state port.new) (end_refused stop)) }
    ensures halts { IfErr result (λ stop. HaltsTelling (P.state port.old) (P.state port.new) trail.now.steps (end_refused stop)) }
    ensures stands { OnOk result (Stands (P.state port.new) trail.now) }
    ensures told { OnOk result (AreTold (P.state port.new) trail.now (length trail.now.steps)) }
    ensures units { OnOk result (UnitsSeen (P.state port.new)) }
    ensures wrote { OnOk result (OnlyWrote (P.state port.old) (P.state port.new)) }
    ensures lines { OnOk result (ToldUnits (P.state port.old) (P.state port.new)) }
    ensures held { (P.state port.new).held ≡ (P.state port.old).held }
    ensures looks { (P.state port.new).looks ≡ (P.state port.old).looks }
    ensures waiting { (P.state port.new).waiting ≡ (P.state port.old).waiting }
    ensures nothing { OffersNothing (P.state port.old) (P.state port.new) }
    ensures analysis { analysis.new.vars ≡ analysis.old.vars }
    ensures port { IsPort (P.state port.new) }
{
    for place in written..trail.len() {
        match write_unit(port, trail, analysis, place) {
            Ok(()) => {}
            Err(stop) => return Err(stop),
        }
    }
    Ok(())
}
