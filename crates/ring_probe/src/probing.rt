// A probe of one literal.
ghost use Rattle.std.specs.Prelude.{◌≡◌, ◌≢◌, ◌≤◌, ◌∷◌, [], true, None, IfOk, IfErr};
ghost use Rattle.sat_words.specs.Literal.{IsOn, opposite};
ghost use Rattle.rup_model.specs.Rup.{rup};
ghost use Rattle.ring_port.specs.PortState.{IsPort, lits_at, known};
ghost use Rattle.ring_port.specs.Log.{KeepsLog};
ghost use Rattle.ring_port.specs.Port.{is_usable, AreHints};
ghost use Rattle.ring_trail.specs.TrailData.{IsTrail, value_of};
ghost use Rattle.watch_prop.specs.WatchData.{attached};
ghost use Rattle.watch_prop.specs.Watched.{Watched};
ghost use Rattle.watch_prop.specs.Propagation.{HasReasons, IsQuiet};
ghost use Rattle.analyze.specs.HintOrder.{AreTraced};
ghost use Rattle.ring_probe.specs.Outcome.{fails, IsProbed, WasCutShort};

use analyze::Analysis;
use ring_port::{Port, PortStop};
use ring_trail::Trail;
use sat_words::Lit;
use std::alloc::AllocError;
use watch_prop::{Propagated, Watches};

/// What became of a literal that was probed.
#[derive(Clone, Copy, PartialEq, Eq, Debug)]
pub enum Probed {
    /// It doesn't fail: it may be true or false.
    Holds,
    /// It fails, and this literal, its negation, is true now.
    Unit(Lit),
    /// It fails and so does its negation, and the empty clause is written.
    Empty,
}

/// Probes a literal without a value. At level 0, with nothing left to propagate, and so it is afterwards unless the empty
/// clause is written.
///
/// The line of a failed literal's negation is written before that is made true, without a reason. Of what follows from it
/// no line is written: the caller's part.
///
/// If a call of the port is refused, what those before it did stays. Once the line is written there may be literals left to
/// propagate then.
pub fn probe<P: Port>(
    port: &mut P,
    watches: &mut Watches,
    trail: &mut Trail,
    analysis: &mut Analysis,
    literal: Lit,
) -> Result<Probed, PortStop>
    requires level { trail.old.level ≡ 0 }
    requires quiet { IsQuiet watches.old (lits_at (P.state port.old)) trail.old }
    requires watched { Watched watches.old (lits_at (P.state port.old)) trail.old }
    requires reasons { HasReasons (attached watches.old) (P.state port.old) trail.old.steps }
    requires vars { (P.state port.old).vars ≡ watches.old.vars }
    requires on { IsOn (P.state port.old).vars literal }
    requires free { value_of trail.old.steps literal.var ≡ None }
    requires usable { is_usable (P.state port.old).refused ≡ true }
    requires analysis { analysis.old.vars ≡ trail.old.vars }
    ensures analysis { analysis.new.vars ≡ analysis.old.vars }
    ensures probed { IfOk result
        (IsProbed (P.state port.old) (P.state port.new) (attached watches.old) watches.new trail.old trail.new literal) }
    ensures stopped { IfErr result
        (WasCutShort (P.state port.old) (P.state port.new) (attached watches.old) trail.old literal) }
    ensures attached { attached watches.new ≡ attached watches.old }
    ensures vars { watches.new.vars ≡ watches.old.vars }
    ensures watched { Watched watches.new (lits_at (P.state port.new)) trail.new }
    ensures reasons { HasReasons (attached watches.new) (P.state port.new) trail.new.steps }
    ensures quiet { IfOk result (λ probed. probed ≢ Probed.Empty → IsQuiet watches.new (lits_at (P.state port.new)) trail.new) }
    ensures level { trail.new.level ≡ 0 }
    ensures trail { IsTrail trail.new }
    ensures held { (P.state port.new).held ≡ (P.state port.old).held }
    ensures log { KeepsLog (P.state port.old) (P.state port.new) }
    ensures port { IsPort (P.state port.new) }
{
    let _vars = port.vars();
    let _lawful = trail.decision_level();
    let Ok(failed) = literal_fails(port, watches, trail, analysis, literal) else {
        return Err(PortStop::Memory);
    };
    if failed {
        return follow_negation(port, watches, trail, analysis, literal);
    }
    Ok(Probed::Holds)
}

/// Whether the literal fails. It is decided and propagated, and then taken back: the trail is as it was, also if there is no
/// memory. If it fails hints are found for the line of its negation.
fn literal_fails<P: Port>(
    port: &mut P,
    watches: &mut Watches,
    trail: &mut Trail,
    analysis: &mut Analysis,
    literal: Lit,
) -> Result<bool, AllocError>
    requires level { trail.old.level ≡ 0 }
    requires quiet { IsQuiet watches.old (lits_at (P.state port.old)) trail.old }
    requires watched { Watched watches.old (lits_at (P.state port.old)) trail.old }
    requires reasons { HasReasons (attached watches.old) (P.state port.old) trail.old.steps }
    requires in_range { literal.var ≤ trail.old.vars }
    requires free { value_of trail.old.steps literal.var ≡ None }
    requires analysis { analysis.old.vars ≡ trail.old.vars }
    ensures analysis { analysis.new.vars ≡ analysis.old.vars }
    ensures same { P.state port.new ≡ P.state port.old }
    ensures trail { trail.new ≡ trail.old }
    ensures attached { attached watches.new ≡ attached watches.old }
    ensures vars { watches.new.vars ≡ watches.old.vars }
    ensures watched { Watched watches.new (lits_at (P.state port.old)) trail.old }
    ensures failed { IfOk result (λ failed. failed ≡ fails (P.state port.old) (attached watches.old) trail.old.steps literal) }
    ensures implied { IfOk result (λ failed. failed ≡ true → rup (known (P.state port.old)) (opposite literal ∷ []) ≡ true) }
    ensures hints { IfOk result (λ failed. failed ≡ true → AreHints (P.state port.old) (opposite literal ∷ []) analysis.new.hints) }
    ensures order { IfOk result (λ failed. failed ≡ true → (P.state port.old).hinted ≡ true
        → AreTraced (P.state port.old) trail.old.steps (opposite literal ∷ []) analysis.new.hints) }
{
    let _lawful = trail.decision_level();
    trail.decide(literal);
    let propagated = watches.propagate(port, trail);
    let _lawful_after = trail.decision_level();
    if let Ok(Propagated::Conflict(conflict)) = propagated {
        analysis.trace_clause(port, trail, &[literal.not()], conflict);
    }
    trail.back_to(0);
    match propagated? {
        Propagated::Quiet => Ok(false),
        Propagated::Conflict(_) => Ok(true),
    }
}

/// Writes the line of a failed literal's negation, makes that true, and propagates. If a clause is false then, the empty
/// clause is written.
fn follow_negation<P: Port>(
    port: &mut P,
    watches: &mut Watches,
    trail: &mut Trail,
    analysis: &mut Analysis,
    literal: Lit,
) -> Result<Probed, PortStop>
    requires level { trail.old.level ≡ 0 }
    requires trail { IsTrail trail.old }
    requires watched { Watched watches.old (lits_at (P.state port.old)) trail.old }
    requires reasons { HasReasons (attached watches.old) (P.state port.old) trail.old.steps }
    requires vars { (P.state port.old).vars ≡ watches.old.vars }
    requires on { IsOn (P.state port.old).vars literal }
    requires free { value_of trail.old.steps literal.var ≡ None }
    requires usable { is_usable (P.state port.old).refused ≡ true }
    requires port { IsPort (P.state port.old) }
    requires failed { fails (P.state port.old) (attached watches.old) trail.old.steps literal ≡ true }
    requires implied { rup (known (P.state port.old)) (opposite literal ∷ []) ≡ true }
    requires hints { AreHints (P.state port.old) (opposite literal ∷ []) analysis.old.hints }
    requires order { (P.state port.old).hinted ≡ true → AreTraced (P.state port.old) trail.old.steps (opposite literal ∷ []) analysis.old.hints }
    requires analysis { analysis.old.vars ≡ trail.old.vars }
    ensures analysis { analysis.new.vars ≡ analysis.old.vars }
    ensures probed { IfOk result
        (IsProbed (P.state port.old) (P.state port.new) (attached watches.old) watches.new trail.old trail.new literal) }
    ensures stopped { IfErr result
        (WasCutShort (P.state port.old) (P.state port.new) (attached watches.old) trail.old literal) }
    ensures attached { attached watches.new ≡ attached watches.old }
    ensures vars { watches.new.vars ≡ watches.old.vars }
    ensures watched { Watched watches.new (lits_at (P.state port.new)) trail.new }
    ensures reasons { HasReasons (attached watches.new) (P.state port.new) trail.new.steps }
    ensures quiet { IfOk result (λ probed. probed ≢ Probed.Empty → IsQuiet watches.new (lits_at (P.state port.new)) trail.new) }
    ensures level { trail.new.level ≡ 0 }
    ensures trail { IsTrail trail.new }
    ensures held { (P.state port.new).held ≡ (P.state port.old).held }
    ensures log { KeepsLog (P.state port.old) (P.state port.new) }
    ensures port { IsPort (P.state port.new) }
{
    let unit = literal.not();
    port.unit(unit, analysis.hints())?;
    trail.assign(unit, None);
    let followed = watches.propagate(port, trail);
    let _lawful = trail.decision_level();
    let Ok(propagated) = followed else {
        return Err(PortStop::Memory);
    };
    match propagated {
        Propagated::Quiet => Ok(Probed::Unit(unit)),
        Propagated::Conflict(conflict) => {
            analysis.trace_clause(port, trail, &[], conflict);
            port.empty(analysis.hints())?;
            Ok(Probed::Empty)
        }
    }
}
