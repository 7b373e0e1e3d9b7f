// What is true while hints are looked for, in the order in which it became so.
ghost use Rattle.std.specs.Prelude.{◌≡◌, ◌<◌, ◌≤◌, ◌++◌, ◌∷◌, [], ℕ, length, IfSome, IfNone, OnOk, OnErr};
ghost use Rattle.sat_words.specs.Literal.{code_of};
ghost use Rattle.simp_base.specs.Hinting.{ArePlaces, lit_at};

use sat_words::Lit;
use std::alloc::{AllocError, Global};
use std::marker::Model;

/// A literal that is true, and the number of the clause that forced it; none if it is given.
#[derive(Clone, Copy)]
pub(crate) struct Step {
    pub(crate) lit: Lit,
    pub(crate) reason: Option<u64>,
}

/// Literals that are true, each at a place.
#[derive(Drop)]
pub(crate) struct Trail {
    steps: Vec<Step>,
    /// By the literal's code, one more than its place; 0 if it has none.
    places: Vec<usize>,
}

impl Model for Trail {
    ghost use Rattle.std.specs.Prelude.{vec_len};
    ghost use Rattle.simp_base.specs.Hinting.{TrailData, ArePlaces};

    ghost Value = { TrailData };

    ghost view = { λ t. record { steps = t.steps.items; codes = vec_len t.places } };

    ghost invariant = { λ t. ArePlaces t.steps.items t.places.items };
}

/// Takes the places of all steps away.
fn forget(steps: &[Step], places: &mut [usize])
    requires { ArePlaces steps.now places.old }
    ensures { ArePlaces [] places.new }
{
    for step in steps {
        places[step.lit.code() as usize] = 0;
    }
}

impl Trail {
    /// Nothing is true.
    pub(crate) fn new(alloc: Global) -> Self
        ensures { result ≡ record { steps = []; codes = 0 } }
    {
        Trail {
            steps: Vec::new(alloc),
            places: Vec::new(alloc),
        }
    }

    /// Makes room for the literals of this many codes.
    pub(crate) fn widen_to(&mut self, codes: usize) -> Result<(), AllocError>
        ensures steps { self.new.steps ≡ self.old.steps }
        ensures codes { OnOk result (codes ≤ self.new.codes) }
    {
        if self.places.len() < codes {
            self.places.resize(codes, 0)?;
        }
        Ok(())
    }

    /// How many literals are true.
    pub(crate) fn len(&self) -> usize
        ensures { result ≡ length self.now.steps }
    {
        self.steps.len()
    }

    /// The steps.
    pub(crate) fn steps(&self) -> &[Step]
        ensures { result.now ≡ self.now.steps }
    {
        self.steps.as_slice()
    }

    /// Where the literal stands.
    pub(crate) fn place_of(&self, lit: Lit) -> Option<usize>
        ensures some { IfSome result (λ p. (p < length self.now.steps) × (lit_at self.now.steps p ≡ lit)) }
        ensures none { IfNone result ((p : ℕ) → p < length self.now.steps → lit_at self.now.steps p ≡ lit → ⊥) }
    {
        match self.places.get(lit.code() as usize) {
            None => None,
            Some(place) => { if *place == 0 { None } else { Some(*place - 1) } }
        }
    }

    /// Puts a literal at the end that has no place.
    pub(crate) fn push(&mut self, step: Step) -> Result<(), AllocError>
        requires code { code_of step.lit < self.old.codes }
        requires free { (p : ℕ) → p < length self.old.steps → lit_at self.old.steps p ≡ step.lit → ⊥ }
        ensures ok { OnOk result (self.new.steps ≡ self.old.steps ++ step ∷ []) }
        ensures err { OnErr result (self.new.steps ≡ self.old.steps) }
        ensures codes { self.new.codes ≡ self.old.codes }
    {
        let code = step.lit.code() as usize;
        self.steps.push(step)?;
        self.places[code] = self.steps.len();
        Ok(())
    }

    /// Takes all steps away.
    pub(crate) fn clear(&mut self)
        ensures { self.new ≡ record self.old { steps = [] } }
    {
        forget(self.steps.as_slice(), self.places.as_mut_slice());
        self.steps.clear();
    }
}
