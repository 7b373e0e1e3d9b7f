//! A search step by step: watches and a trail over any port.
ghost use Rattle.std.specs.Prelude.{◌≡◌, ◌≤◌, ◌<◌, ◌^◌, ◌++◌, [], None, All, IfOk, IsSome, OnOk};
ghost use Rattle.sat_words.specs.declared.shared.Cref.{Cref};
ghost use Rattle.ring_port.specs.PortState.{held_at, lits_at};
ghost use Rattle.ring_trail.specs.TrailData.{HasGrown, decided, value_of};
ghost use Rattle.analyze.specs.Lemma.{IsConclusion};
ghost use Rattle.watch_prop.specs.WatchData.{attached};
ghost use Rattle.watch_prop.specs.Propagation.{IsConflict, IsPropagated, IsQuiet};
ghost use Rattle.test_ring.specs.Stepping.{IsStepping, empty_trail};

use analyze::{Analysis, Conclusion};
use ring_port::Port;
use ring_trail::Trail;
use sat_words::{Cref, Lit};
use std::alloc::{AllocError, Global};
use std::test::Fail;
use watch_prop::{Propagated, Watches};

/// Watches and a trail over a port.
#[derive(Drop)]
pub struct Stepping {
    /// The clauses that are attached.
    pub watches: Watches,
    /// What is true.
    pub trail: Trail,
}

impl Stepping {
    /// No clause is attached, and nothing is true.
    pub fn new<P: Port>(alloc: Global, port: &P) -> Result<Stepping, Fail>
        ensures stepping { IfOk result (λ s. IsStepping (P.state port.now) s.watches s.trail) }
        ensures vars { IfOk result (λ s. s.watches.vars ≡ (P.state port.now).vars) }
        ensures attached { IfOk result (λ s. attached s.watches ≡ []) }
        ensures bare { IfOk result (λ s. s.trail.steps ≡ []) }
        ensures empty { IfOk result (λ s. s.trail ≡ empty_trail (P.state port.now).vars) }
    {
        let vars = port.vars();
        if vars > 1 << 30 {
            return Err(Fail::from("too many variables"));
        }
        let watches = Watches::new(alloc, vars)?;
        let trail = Trail::new(alloc, vars)?;
        Ok(Stepping { watches, trail })
    }

    /// Attaches clauses that are held, in their order, if nothing is true.
    pub fn attach<P: Port>(&mut self, port: &mut P, clauses: &[Cref]) -> Result<(), AllocError>
        requires stepping { IsStepping (P.state port.old) self.old.watches self.old.trail }
        requires bare { self.old.trail.steps ≡ [] }
        requires vars { self.old.watches.vars ≡ (P.state port.old).vars }
        requires held { All (λ (c : Cref). IsSome (held_at (P.state port.old) c.address)) clauses.now }
        ensures same { P.state port.new ≡ P.state port.old }
        ensures stepping { OnOk result (IsStepping (P.state port.old) self.new.watches self.new.trail) }
        ensures attached { OnOk result (attached self.new.watches ≡ attached self.old.watches ++ clauses.now) }
        ensures trail { OnOk result (self.new.trail ≡ self.old.trail) }
    {
        for clause in clauses {
            self.watches.attach(port, &self.trail, *clause)?;
        }
        Ok(())
    }

    /// Propagates.
    pub fn propagate<P: Port>(&mut self, port: &mut P) -> Result<Propagated, AllocError>
        requires { IsStepping (P.state port.old) self.old.watches self.old.trail }
        ensures same { P.state port.new ≡ P.state port.old }
        ensures stepping { OnOk result (IsStepping (P.state port.old) self.new.watches self.new.trail) }
        ensures attached { OnOk result (attached self.new.watches ≡ attached self.old.watches) }
        ensures grown { OnOk result (HasGrown self.old.trail self.new.trail) }
        ensures propagated { IfOk result (IsPropagated self.new.watches (lits_at (P.state port.old)) self.new.trail) }
    {
        let outcome = self.watches.propagate(port, &mut self.trail)?;
        let _lawful = self.trail.decision_level();
        Ok(outcome)
    }

    /// Makes a literal true at a level of its own, if its variable has no value, and propagates.
    pub fn decide<P: Port>(&mut self, port: &mut P, lit: Lit) -> Result<Propagated, Fail>
        requires stepping { IsStepping (P.state port.old) self.old.watches self.old.trail }
        requires quiet { IsQuiet self.old.watches (lits_at (P.state port.old)) self.old.trail }
        ensures same { P.state port.new ≡ P.state port.old }
        ensures stepping { OnOk result (IsStepping (P.state port.old) self.new.watches self.new.trail) }
        ensures attached { OnOk result (attached self.new.watches ≡ attached self.old.watches) }
        ensures grown { OnOk result (HasGrown (decided self.old.trail lit) self.new.trail) }
        ensures propagated { IfOk result (IsPropagated self.new.watches (lits_at (P.state port.old)) self.new.trail) }
    {
        if lit.var() > self.trail.vars() {
            return Err(Fail::from("no variable"));
        }
        if self.trail.value(lit.var()).is_some() {
            return Err(Fail::from("the variable has a value"));
        }
        self.trail.decide(lit);
        Ok(self.propagate(port)?)
    }

    /// Analyses a conflict.
    pub fn conclude<P: Port>(
        &self,
        alloc: Global,
        port: &mut P,
        conflict: Cref,
    ) -> Result<(Conclusion, Analysis), AllocError>
        requires stepping { IsStepping (P.state port.old) self.now.watches self.now.trail }
        requires conflict { IsConflict self.now.watches (lits_at (P.state port.old)) self.now.trail conflict }
        ensures same { P.state port.new ≡ P.state port.old }
        ensures found { IfOk result (λ told. IsConclusion (P.state port.old) self.now.trail (lits_at (P.state port.old) conflict.address) told.1.lits told.0) }
    {
        let mut analysis = Analysis::new(alloc, self.trail.vars())?;
        let conclusion = analysis.analyze(port, &self.trail, conflict);
        Ok((conclusion, analysis))
    }

    /// The variable's value; none if it is no variable of the trail's.
    pub fn value(&self, var: u32) -> Option<bool>
        ensures known { var ≤ self.now.trail.vars → result ≡ value_of self.now.trail.steps var }
        ensures none { self.now.trail.vars < var → result ≡ None }
    {
        if var > self.trail.vars() {
            return None;
        }
        self.trail.value(var)
    }
}

/// Watches and a trail that have the start clauses of a port, at which nothing is left to propagate.
pub fn quiet_start<P: Port>(alloc: Global, port: &mut P, clauses: &[Cref]) -> Result<Stepping, Fail>
    requires held { All (λ (c : Cref). IsSome (held_at (P.state port.old) c.address)) clauses.now }
    ensures same { P.state port.new ≡ P.state port.old }
    ensures stepping { IfOk result (λ s. IsStepping (P.state port.old) s.watches s.trail) }
    ensures attached { IfOk result (λ s. attached s.watches ≡ clauses.now) }
    ensures grown { IfOk result (λ s. HasGrown (empty_trail (P.state port.old).vars) s.trail) }
    ensures quiet { IfOk result (λ s. IsQuiet s.watches (lits_at (P.state port.old)) s.trail) }
{
    let mut stepping = Stepping::new(alloc, port)?;
    stepping.attach(port, clauses)?;
    let Propagated::Quiet = stepping.propagate(port)? else {
        return Err(Fail::from("a conflict without a decision"));
    };
    Ok(stepping)
}
