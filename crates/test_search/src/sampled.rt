//! Watches and a trail at level 0 over the small port.
ghost use Rattle.std.specs.Prelude.{◌≡◌, ◌≤◌, ◌++◌, ◌∷◌, [], None, true, map, IfOk, OnOk};
ghost use Rattle.sat_words.specs.Clause.{has};
ghost use Rattle.ring_port.specs.PortState.{lits_at};
ghost use Rattle.ring_trail.specs.TrailData.{HasGrown, assigned, value_of};
ghost use Rattle.watch_prop.specs.WatchData.{attached, without, without_all};
ghost use Rattle.watch_prop.specs.Propagation.{IsPropagated};
ghost use Rattle.test_ports.specs.Sample.{sample_state};
ghost use Rattle.test_search.specs.Sampled.{IsSampled, cref_of, left_by};

use ring_trail::Trail;
use sat_words::{Cref, Lit};
use std::alloc::{AllocError, Global};
use test_ports::SamplePort;
use watch_prop::{Propagated, Watches};

/// A clause that the small port holds.
#[derive(Clone, Copy)]
pub enum SampleClause {
    /// `-1 2`.
    First,
    /// `-4 -1 5`.
    Second,
    /// `-4 -2 -5`.
    Third,
}

/// Where the port holds it.
fn address_of(clause: SampleClause) -> Cref
    ensures { result ≡ cref_of clause }
{
    let address = match clause {
        SampleClause::First => 1,
        SampleClause::Second => 2,
        SampleClause::Third => 3,
    };
    Cref { address }
}

/// Watches and a trail over the small port.
#[derive(Drop)]
pub struct Sampled {
    /// The clauses that are attached.
    pub watches: Watches,
    /// What is true, all at level 0.
    pub trail: Trail,
}

impl Sampled {
    /// No clause is attached, and nothing is true.
    pub fn new(alloc: Global) -> Result<Sampled, AllocError>
        ensures sampled { IfOk result (λ s. IsSampled s.watches s.trail) }
        ensures attached { IfOk result (λ s. attached s.watches ≡ []) }
        ensures bare { IfOk result (λ s. s.trail.steps ≡ []) }
    {
        let watches = Watches::new(alloc, 5)?;
        let trail = Trail::new(alloc, 5)?;
        Ok(Sampled { watches, trail })
    }

    /// Attaches a clause.
    pub fn attach(&mut self, clause: SampleClause) -> Result<(), AllocError>
        requires { IsSampled self.old.watches self.old.trail }
        ensures sampled { IsSampled self.new.watches self.new.trail }
        ensures attached { OnOk result (attached self.new.watches ≡ attached self.old.watches ++ cref_of clause ∷ []) }
        ensures trail { self.new.trail ≡ self.old.trail }
    {
        let mut port = SamplePort {
            stage: 0,
            drawn: false,
            loads: 0,
        };
        self.watches
            .attach(&mut port, &self.trail, address_of(clause))?;
        Ok(())
    }

    /// Attaches these clauses, in their order.
    pub fn attach_all(&mut self, clauses: &[SampleClause]) -> Result<(), AllocError>
        requires { IsSampled self.old.watches self.old.trail }
        ensures sampled { IsSampled self.new.watches self.new.trail }
        ensures attached { OnOk result (attached self.new.watches ≡ attached self.old.watches ++ map cref_of clauses.now) }
        ensures trail { self.new.trail ≡ self.old.trail }
    {
        for clause in clauses {
            self.attach(*clause)?;
        }
        Ok(())
    }

    /// Detaches a clause, if nothing is true.
    pub fn detach(&mut self, clause: SampleClause)
        requires sampled { IsSampled self.old.watches self.old.trail }
        requires bare { self.old.trail.steps ≡ [] }
        ensures sampled { IsSampled self.new.watches self.new.trail }
        ensures attached { attached self.new.watches ≡ without (attached self.old.watches) (cref_of clause).address }
        ensures trail { self.new.trail ≡ self.old.trail }
    {
        let mut port = SamplePort {
            stage: 0,
            drawn: false,
            loads: 0,
        };
        self.watches.detach(&mut port, address_of(clause));
    }

    /// Detaches the first and the third clause at once, if nothing is true.
    pub fn detach_two(&mut self)
        requires sampled { IsSampled self.old.watches self.old.trail }
        requires bare { self.old.trail.steps ≡ [] }
        ensures sampled { IsSampled self.new.watches self.new.trail }
        ensures attached { attached self.new.watches ≡ without_all (attached self.old.watches) (record { address = 1 } ∷ record { address = 3 } ∷ []) }
        ensures trail { self.new.trail ≡ self.old.trail }
    {
        self.watches
            .detach_all(&[Cref { address: 1 }, Cref { address: 3 }]);
    }

    /// Attaches the third clause and detaches it, this many times, if nothing is true.
    pub fn come_and_go(&mut self, count: u32) -> Result<(), AllocError>
        requires sampled { IsSampled self.old.watches self.old.trail }
        requires bare { self.old.trail.steps ≡ [] }
        ensures sampled { IsSampled self.new.watches self.new.trail }
        ensures attached { OnOk result (attached self.new.watches ≡ left_by count (attached self.old.watches)) }
        ensures trail { self.new.trail ≡ self.old.trail }
    {
        for _done in 0..count {
            self.attach(SampleClause::Third)?;
            self.detach(SampleClause::Third);
        }
        Ok(())
    }

    /// Propagates. Tells how often a clause was looked at, too.
    pub fn propagate(&mut self) -> Result<(Propagated, u64), AllocError>
        requires { IsSampled self.old.watches self.old.trail }
        ensures sampled { IsSampled self.new.watches self.new.trail }
        ensures attached { attached self.new.watches ≡ attached self.old.watches }
        ensures grown { HasGrown self.old.trail self.new.trail }
        ensures propagated { IfOk result (λ told. IsPropagated self.new.watches (lits_at sample_state) self.new.trail told.0) }
    {
        let mut port = SamplePort {
            stage: 0,
            drawn: false,
            loads: 0,
        };
        let outcome = self.watches.propagate(&mut port, &mut self.trail)?;
        Ok((outcome, port.loads))
    }

    /// Makes a literal true, whose unit is seen, and propagates. Tells how often a clause was looked at, too.
    pub fn propagate_unit(&mut self, lit: Lit) -> Result<(Propagated, u64), AllocError>
        requires sampled { IsSampled self.old.watches self.old.trail }
        requires seen { has sample_state.seen lit ≡ true }
        requires in_range { lit.var ≤ 5 }
        requires free { value_of self.old.trail.steps lit.var ≡ None }
        ensures sampled { IsSampled self.new.watches self.new.trail }
        ensures attached { attached self.new.watches ≡ attached self.old.watches }
        ensures grown { HasGrown (assigned self.old.trail lit None) self.new.trail }
        ensures propagated { IfOk result (λ told. IsPropagated self.new.watches (lits_at sample_state) self.new.trail told.0) }
    {
        let _lawful = self.trail.decision_level();
        self.trail.assign(lit, None);
        self.propagate()
    }
}
