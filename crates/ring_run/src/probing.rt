// Where lemmas were vivified: failed literals are looked for, by code (Freeman 1995; Lynce and Marques-Silva 2003).
ghost use Rattle.std.specs.Prelude.{◌≡◌, ◌≤◌, ◌<◌, ◌+◌, ◌*◌, ◌^◌, length, IfOk, IfErr, OnOk};
ghost use Rattle.sat_words.specs.Literal.{IsOn, literal_of};
ghost use Rattle.ring_port.specs.PortState.{IsPort};
ghost use Rattle.ring_trail.specs.TrailData.{HasNoPlace};
ghost use Rattle.ring_run.specs.Searching.{OffersNothing, KeepsOn};
ghost use Rattle.ring_run.specs.Course.{HasLemmas};
ghost use Rattle.ring_run.specs.Renewal.{point, code_on, TookCode, WasProbed, ProbedRound, IsResting, HaltsAt};
ghost use Rattle.ring_run.specs.Halting.{HaltsAtProbe, HaltsAtCode, HaltsInRound};

use crate::course::end_refused;
use crate::decision::write_pending;
use crate::job::End;
use crate::ring::Ring;
use analyze::Analysis;
use ring_port::Port;
use ring_probe::{Probed, probe};
use sat_words::Lit;

/// How many literals a ring probes at most after it has vivified its lemmas. So a reduction, which comes after 2000 lemmas or more,
/// costs at most this many propagations from one literal.
pub const PROBES: u32 = 1_000;

/// The least code of a literal: that of the first variable.
pub(crate) const LEAST_CODE: u32 = 2;

/// Probes a literal. If it fails its negation is true then, and what became true gets its lines.
fn probe_literal<P: Port>(
    port: &mut P,
    ring: &mut Ring,
    analysis: &mut Analysis,
    lit: Lit,
) -> Result<(), End>
    requires resting { IsResting (P.state port.old) ring.old }
    requires listed { HasLemmas (P.state port.old) ring.old }
    requires on { IsOn ring.old.trail.vars lit }
    requires free { HasNoPlace ring.old.trail.steps lit.var }
    requires analysis { analysis.old.vars ≡ ring.old.trail.vars }
    ensures over { IfErr result (HaltsAt (P.state port.old) (P.state port.new)) }
    ensures halts { IfErr result (HaltsAtProbe (point (P.state port.old) ring.old) (P.state port.new) lit) }
    ensures keeps { OnOk result (KeepsOn (P.state port.old) (P.state port.new)) }
    ensures resting { OnOk result (IsResting (P.state port.new) ring.new) }
    ensures listed { OnOk result (HasLemmas (P.state port.new) ring.new) }
    ensures probed { OnOk result (WasProbed (point (P.state port.old) ring.old) (point (P.state port.new) ring.new) lit) }
    ensures vars { OnOk result (ring.new.trail.vars ≡ ring.old.trail.vars) }
    ensures steps { OnOk result (length ring.old.trail.steps ≤ length ring.new.trail.steps) }
    ensures same { ring.new ≡ record ring.old { trail = ring.new.trail; watches = ring.new.watches; written = ring.new.written } }
    ensures looks { (P.state port.new).looks ≡ (P.state port.old).looks }
    ensures nothing { OffersNothing (P.state port.old) (P.state port.new) }
    ensures analysis { analysis.new.vars ≡ analysis.old.vars }
    ensures port { IsPort (P.state port.new) }
{
    match probe(port, &mut ring.watches, &mut ring.trail, analysis, lit) {
        Ok(Probed::Holds) => Ok(()),
        Ok(Probed::Unit(_)) => match write_pending(port, ring, analysis) {
            Ok(()) => Ok(()),
            Err(stop) => Err(end_refused(stop)),
        },
        Ok(Probed::Empty) => Err(End::Refuted),
        Err(stop) => Err(end_refused(stop)),
    }
}

/// This code if a literal on the variables has it, else the least one.
fn code_on(vars: u32, code: u32) -> u32
    requires some { 1 ≤ vars }
    requires small { vars ≤ 2 ^ 30 }
    ensures code { result ≡ code_on vars code }
    ensures low { 2 ≤ result }
    ensures high { result ≤ 2 * vars + 1 }
{
    if code < LEAST_CODE || code > 2 * vars + 1 {
        LEAST_CODE
    } else {
        code
    }
}

/// The literal with which probing goes on, after which it goes on with the next one.
fn take_literal(ring: &mut Ring) -> Lit
    requires some { 1 ≤ ring.old.trail.vars }
    requires small { ring.old.trail.vars ≤ 2 ^ 30 }
    ensures literal { result ≡ literal_of (code_on ring.old.trail.vars ring.old.next_probe) }
    ensures on { IsOn ring.old.trail.vars result }
    ensures same { ring.new ≡ record ring.old { next_probe = code_on ring.old.trail.vars ring.old.next_probe + 1 } }
{
    let code = code_on(ring.trail.vars(), ring.next_probe);
    ring.next_probe = code + 1;
    Lit::new(code / 2, code % 2 == 1)
}

/// Gives the next literal its turn: it is probed if it has no value. Answers how many may be probed after it.
fn probe_next<P: Port>(
    port: &mut P,
    ring: &mut Ring,
    analysis: &mut Analysis,
    left: u32,
) -> Result<u32, End>
    requires resting { IsResting (P.state port.old) ring.old }
    requires listed { HasLemmas (P.state port.old) ring.old }
    requires some { 1 ≤ ring.old.trail.vars }
    requires left { 1 ≤ left }
    requires analysis { analysis.old.vars ≡ ring.old.trail.vars }
    ensures over { IfErr result (HaltsAt (P.state port.old) (P.state port.new)) }
    ensures halts { IfErr result (HaltsAtCode (point (P.state port.old) ring.old) (P.state port.new) (code_on ring.old.trail.vars ring.old.next_probe)) }
    ensures keeps { OnOk result (KeepsOn (P.state port.old) (P.state port.new)) }
    ensures resting { OnOk result (IsResting (P.state port.new) ring.new) }
    ensures listed { OnOk result (HasLemmas (P.state port.new) ring.new) }
    ensures took { IfOk result (TookCode (point (P.state port.old) ring.old) (point (P.state port.new) ring.new) (code_on ring.old.trail.vars ring.old.next_probe) left) }
    ensures next { ring.new.next_probe ≡ code_on ring.old.trail.vars ring.old.next_probe + 1 }
    ensures vars { OnOk result (ring.new.trail.vars ≡ ring.old.trail.vars) }
    ensures steps { OnOk result (length ring.old.trail.steps ≤ length ring.new.trail.steps) }
    ensures same { ring.new ≡ record ring.old { trail = ring.new.trail; watches = ring.new.watches; written = ring.new.written; next_probe = ring.new.next_probe } }
    ensures looks { (P.state port.new).looks ≡ (P.state port.old).looks }
    ensures nothing { OffersNothing (P.state port.old) (P.state port.new) }
    ensures analysis { analysis.new.vars ≡ analysis.old.vars }
    ensures port { IsPort (P.state port.new) }
{
    let lit = take_literal(ring);
    if ring.trail.truth(lit).is_some() {
        return Ok(left);
    }
    match probe_literal(port, ring, analysis, lit) {
        Ok(()) => Ok(left - 1),
        Err(end) => Err(end),
    }
}

/// Probes literals without a value, by code: from where the last probing stopped, and then from the least code, at most once round.
pub(crate) fn probe_literals<P: Port>(
    port: &mut P,
    ring: &mut Ring,
    analysis: &mut Analysis,
) -> Result<(), End>
    requires resting { IsResting (P.state port.old) ring.old }
    requires listed { HasLemmas (P.state port.old) ring.old }
    requires analysis { analysis.old.vars ≡ ring.old.trail.vars }
    ensures over { IfErr result (HaltsAt (P.state port.old) (P.state port.new)) }
    ensures halts { IfErr result (HaltsInRound (point (P.state port.old) ring.old) (P.state port.new) ring.old.next_probe) }
    ensures keeps { OnOk result (KeepsOn (P.state port.old) (P.state port.new)) }
    ensures resting { OnOk result (IsResting (P.state port.new) ring.new) }
    ensures listed { OnOk result (HasLemmas (P.state port.new) ring.new) }
    ensures round { OnOk result (ProbedRound (point (P.state port.old) ring.old) (point (P.state port.new) ring.new) ring.old.next_probe ring.new.next_probe) }
    ensures steps { OnOk result (length ring.old.trail.steps ≤ length ring.new.trail.steps) }
    ensures same { ring.new ≡ record ring.old { trail = ring.new.trail; watches = ring.new.watches; written = ring.new.written; next_probe = ring.new.next_probe } }
    ensures looks { (P.state port.new).looks ≡ (P.state port.old).looks }
    ensures nothing { OffersNothing (P.state port.old) (P.state port.new) }
    ensures vars { OnOk result (ring.new.trail.vars ≡ ring.old.trail.vars) }
    ensures analysis { analysis.new.vars ≡ analysis.old.vars }
    ensures port { IsPort (P.state port.new) }
{
    let _vars = port.vars();
    let mut left = PROBES;
    for _turn in 0..2 * ring.trail.vars() {
        if left == 0 {
            return Ok(());
        }
        match probe_next(port, ring, analysis, left) {
            Ok(rest) => left = rest,
            Err(end) => return Err(end),
        }
    }
    Ok(())
}
