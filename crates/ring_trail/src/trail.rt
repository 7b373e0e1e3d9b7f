//! The trail as its tables keep it: the steps in order, values by literal, places by variable, and where each level
//! starts. A change must go to all of them: values and places tell the steps, and the starts part them by level.
ghost use Rattle.std.specs.Prelude.{◌≡◌, ◌↔◌, ◌≤◌, ◌<◌, ◌+◌, ◌++◌, ◌^◌, ◌∷◌, [], IfOk, IsTrue, IsNone, ℕ, None, length, take, MatchOption, MatchBool};
ghost use Rattle.std.specs.Vec.{vec_capacity};
ghost use Rattle.sat_words.specs.Literal.{Literal, opposite};
ghost use Rattle.sat_words.specs.Values.{is_true};
ghost use Rattle.ring_trail.specs.TrailData.{TrailData, IsTrail, IsNext, IsPlaceOf, HasNoPlace, IsTrueOn, IsFalseOn, value_of, level_of, reason_of, lit_at, level_at, reason_at, start_of, decided, assigned, cut_back};
ghost use Rattle.ring_trail.specs.Inside.{IsKept, ArePlaces};

use crate::step::TrailStep;
use sat_words::{Cref, Lit, Values};
use std::alloc::{AllocError, Global};
use std::marker::Model;

/// The true literals in the order in which they became so, with levels and reasons, and how many of the first of them
/// were propagated. Variables are 1 to `vars`.
///
/// Level 0 holds what is true without a decision; each decision opens the next level. No call but `new` takes memory.
#[derive(Drop)]
pub struct Trail {
    steps: Vec<TrailStep>,
    values: Values,
    places: Vec<u32>,
    starts: Vec<usize>,
    done: usize,
    vars: u32,
}

impl Model for Trail {
    ghost use Rattle.std.specs.Prelude.{length};
    ghost use Rattle.ring_trail.specs.TrailData.{TrailData};

    ghost Value = { TrailData };

    ghost use Rattle.ring_trail.specs.Inside.{IsInside};

    ghost view = { λ t. record { vars = t.vars; level = length t.starts.items; steps = t.steps.items; done = t.done } };

    ghost invariant = { IsInside };
}

impl Trail {
    /// No literal is true, at level 0.
    pub fn new(alloc: Global, vars: u32) -> Result<Trail, AllocError>
        requires { vars ≤ 2 ^ 30 }
        ensures empty { IfOk result (λ t. t ≡ record { vars = vars; level = 0; steps = []; done = 0 }) }
        ensures trail { IfOk result IsTrail }
    {
        let room = vars as usize + 1;
        let mut places = Vec::new(alloc);
        places.resize(room, 0)?;
        Ok(Trail {
            steps: Vec::with_capacity(alloc, room)?,
            values: Values::new(alloc, vars)?,
            places,
            starts: Vec::with_capacity(alloc, room)?,
            done: 0,
            vars,
        })
    }

    /// The number of variables that it was made for.
    pub fn vars(&self) -> u32
        ensures vars { result ≡ self.now.vars }
        ensures trail { IsTrail self.now }
    {
        self.vars
    }

    /// The present level: how many decisions stand.
    pub fn decision_level(&self) -> u32
        ensures level { result ≡ self.now.level }
        ensures trail { IsTrail self.now }
    {
        self.starts.len() as u32
    }

    /// How many literals are true.
    pub fn len(&self) -> u32
        ensures len { result ≡ length self.now.steps }
        ensures trail { IsTrail self.now }
    {
        self.steps.len() as u32
    }

    /// Whether no literal is true.
    pub fn is_empty(&self) -> bool
        ensures { IsTrue result ↔ (self.now.steps ≡ []) }
    {
        self.steps.is_empty()
    }

    /// How many of the first literals were propagated.
    pub fn propagated(&self) -> u32
        ensures done { result ≡ self.now.done }
        ensures trail { IsTrail self.now }
    {
        self.done as u32
    }

    /// The variable's value; none if it has none.
    pub fn value(&self, var: u32) -> Option<bool>
        requires { var ≤ self.now.vars }
        ensures { result ≡ value_of self.now.steps var }
    {
        self.values.value(var)
    }

    /// Whether the literal is true.
    pub fn is_true(&self, lit: Lit) -> bool
        requires { lit.var ≤ self.now.vars }
        ensures { IsTrue result ↔ IsTrueOn self.now.steps lit }
    {
        self.values.is_true(lit)
    }

    /// Whether the literal is false.
    pub fn is_false(&self, lit: Lit) -> bool
        requires { lit.var ≤ self.now.vars }
        ensures { IsTrue result ↔ IsFalseOn self.now.steps lit }
    {
        self.values.is_false(lit)
    }

    /// The values of all variables, for who looks at many literals.
    pub fn values(&self) -> &Values
        ensures is_true { (l : Literal) → l.var ≤ self.now.vars → IsTrue (is_true result.now l) ↔ IsTrueOn self.now.steps l }
        ensures is_false { (l : Literal) → l.var ≤ self.now.vars → IsTrue (is_true result.now (opposite l)) ↔ IsFalseOn self.now.steps l }
    {
        &self.values
    }

    /// Whether the literal is true or false; none if its variable has no value.
    pub fn truth(&self, lit: Lit) -> Option<bool>
        requires { lit.var ≤ self.now.vars }
        ensures none { IsNone result ↔ (value_of self.now.steps lit.var ≡ None) }
        ensures truth { MatchOption result (HasNoPlace self.now.steps lit.var) (λ b. MatchBool b (IsTrueOn self.now.steps lit) (IsFalseOn self.now.steps lit)) }
    {
        match self.values.value(lit.var()) {
            None => None,
            Some(value) => Some(value != lit.is_neg()),
        }
    }

    /// The level at which the variable got its value.
    pub fn level(&self, var: u32) -> Option<u32>
        requires { var ≤ self.now.vars }
        ensures { result ≡ level_of self.now.steps var }
    {
        let place = self.place(var)?;
        Some(self.steps[place as usize].level)
    }

    /// The clause that gave the variable its value; none if it has no value or its literal has no reason.
    pub fn reason(&self, var: u32) -> Option<Cref>
        requires { var ≤ self.now.vars }
        ensures { result ≡ reason_of self.now.steps var }
    {
        let place = self.place(var)?;
        self.steps[place as usize].reason
    }

    /// The place of the variable's literal among the steps, from 0.
    pub fn place(&self, var: u32) -> Option<u32>
        requires { var ≤ self.now.vars }
        ensures place { MatchOption result (HasNoPlace self.now.steps var) (IsPlaceOf self.now.steps var) }
        ensures trail { IsTrail self.now }
    {
        match self.values.value(var) {
            None => None,
            Some(_) => Some(self.places[var as usize]),
        }
    }

    /// The literal at a place.
    pub fn lit_at(&self, place: u32) -> Lit
        requires { place < length self.now.steps }
        ensures { result ≡ lit_at self.now.steps place }
    {
        self.steps[place as usize].lit
    }

    /// The level of the literal at a place.
    pub fn level_at(&self, place: u32) -> u32
        requires { place < length self.now.steps }
        ensures { result ≡ level_at self.now.steps place }
    {
        self.steps[place as usize].level
    }

    /// The clause that forced the literal at a place.
    pub fn reason_at(&self, place: u32) -> Option<Cref>
        requires { place < length self.now.steps }
        ensures { result ≡ reason_at self.now.steps place }
    {
        self.steps[place as usize].reason
    }

    /// The place at which a level starts, that of its decision.
    pub fn start(&self, level: u32) -> u32
        requires { level ≤ self.now.level }
        ensures start { result ≡ start_of self.now.steps level }
        ensures inside { result ≤ length self.now.steps }
        ensures below { (p : ℕ) → p < result → level_at self.now.steps p < level }
        ensures above { (p : ℕ) → result ≤ p → p < length self.now.steps → level ≤ level_at self.now.steps p }
    {
        if level == 0 {
            return 0;
        }
        self.starts[level as usize - 1] as u32
    }

    /// The first literal that wasn't propagated.
    pub fn next(&self) -> Option<Lit>
        ensures next { MatchOption result (self.now.done ≡ length self.now.steps) (IsNext self.now) }
        ensures trail { IsTrail self.now }
    {
        if self.done < self.steps.len() {
            Some(self.steps[self.done].lit)
        } else {
            None
        }
    }

    /// The first literal that wasn't propagated is.
    pub fn advance_head(&mut self)
        requires { self.old.done < length self.old.steps }
        ensures done { self.new ≡ record self.old { done = self.old.done + 1 } }
        ensures trail { IsTrail self.new }
    {
        self.done += 1;
    }

    /// Makes the literal true at a level of its own, the next one.
    pub fn decide(&mut self, lit: Lit)
        requires in_range { lit.var ≤ self.old.vars }
        requires free { value_of self.old.steps lit.var ≡ None }
        ensures step { self.new ≡ decided self.old lit }
        ensures trail { IsTrail self.new }
    {
        let level = self.decision_level() + 1;
        let start = self.steps.len();
        let step = TrailStep {
            lit,
            level,
            reason: None,
        };
        put(&mut self.steps, &mut self.values, &mut self.places, step);
        self.starts.push_reserved(start);
    }

    /// Makes the literal true at the present level.
    pub fn assign(&mut self, lit: Lit, reason: Option<Cref>)
        requires in_range { lit.var ≤ self.old.vars }
        requires free { value_of self.old.steps lit.var ≡ None }
        ensures step { self.new ≡ assigned self.old lit reason }
        ensures trail { IsTrail self.new }
    {
        let level = self.decision_level();
        let step = TrailStep { lit, level, reason };
        put(&mut self.steps, &mut self.values, &mut self.places, step);
    }

    /// Takes the literals of all levels above this one back. What is left of them is the first of the old ones. A level
    /// that is not below the present one changes nothing.
    pub fn back_to(&mut self, level: u32)
        ensures back { level ≤ self.old.level → self.new ≡ cut_back self.old level }
        ensures same { self.old.level ≤ level → self.new ≡ self.old }
        ensures prefix { self.new.steps ≡ take (length self.new.steps) self.old.steps }
        ensures shorter { length self.new.steps ≤ length self.old.steps }
        ensures trail { IsTrail self.new }
    {
        let level = level as usize;
        if level < self.starts.len() {
            let keep = self.starts[level];
            undo(&mut self.steps, &mut self.values, keep);
            self.starts.truncate(level);
            self.done = self.done.min(keep);
        }
    }
}

/// Makes a literal true.
fn put(steps: &mut Vec<TrailStep>, values: &mut Values, places: &mut Vec<u32>, step: TrailStep)
    requires kept { IsKept steps.old.items values.old }
    requires placed { ArePlaces steps.old.items places.old.items }
    requires sizes { length places.old.items ≡ length values.old }
    requires in_range { step.lit.var < length values.old }
    requires low { 1 ≤ step.lit.var }
    requires free { value_of steps.old.items step.lit.var ≡ None }
    requires room { length values.old ≤ vec_capacity steps.old }
    requires few { length values.old ≤ 2 ^ 31 }
    ensures steps { steps.new.items ≡ steps.old.items ++ step ∷ [] }
    ensures kept { IsKept steps.new.items values.new }
    ensures placed { ArePlaces steps.new.items places.new.items }
    ensures room { vec_capacity steps.new ≡ vec_capacity steps.old }
    ensures range { length values.new ≡ length values.old }
    ensures sizes { length places.new.items ≡ length places.old.items }
{
    let place = steps.len() as u32;
    values.set(step.lit);
    places[step.lit.var() as usize] = place;
    steps.push_reserved(step);
}

/// Takes the steps from a place on.
fn undo(steps: &mut Vec<TrailStep>, values: &mut Values, keep: usize)
    requires kept { IsKept steps.old.items values.old }
    requires low { keep ≤ length steps.old.items }
    ensures steps { steps.new.items ≡ take keep steps.old.items }
    ensures kept { IsKept steps.new.items values.new }
    ensures room { vec_capacity steps.new ≡ vec_capacity steps.old }
    ensures range { length values.new ≡ length values.old }
{
    while steps.len() > keep {
        if let Some(step) = steps.pop() {
            values.unset(step.lit.var());
        }
    }
}
