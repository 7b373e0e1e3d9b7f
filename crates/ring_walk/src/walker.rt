ghost use Rattle.std.specs.Prelude.{◌≡◌, ◌≤◌, ◌<◌, ◌+◌, ◌^◌, All, IfOk, false, length};
ghost use Rattle.sat_words.specs.Literal.{IsOn};
ghost use Rattle.sat_words.specs.Clause.{has_opposites};
ghost use Rattle.sat_words.specs.Truth.{value_of, clause_true};

use crate::counting::tally_of;
use crate::kept::Kept;
use crate::occurrences::{Occurrences, occurrences_of};
use crate::starting::{fixed_by, values_of};
use crate::tally::Tally;
use crate::turns;
use rand_core::utils::NextWord;
use rand_pcg::Lcg64Xsh32;
use sat_words::{Assignment, Clause, Lit};
use std::alloc::{AllocError, Global};
use std::marker::Model;

/// The weight of a variable that breaks no clause.
const HEAVIEST: u64 = 1 << 16;

/// An assignment on its way, with what it makes of some clauses: which of them are false, and which are true by one literal alone.
///
/// A variable with a unit has the value of the unit for good. Only `new` takes memory: all tables have their room from then on. A
/// flip costs as much as there are clauses that have its variable, and a step of a walk as much as the clause that it draws besides.
#[derive(Drop)]
pub struct Walker<'a> {
    clauses: &'a [Clause],
    fixed: Assignment,
    kept: Kept,
    tally: Tally,
    occurrences: Occurrences,
}

impl<'a> Model for Walker<'a> {
    ghost use Rattle.ring_walk.specs.WalkData.{WalkData};

    ghost Value = { WalkData };

    ghost use Rattle.ring_walk.specs.Inside.{IsWalker};

    ghost view = { λ w. record { clauses = w.clauses.now; fixed = w.fixed; values = w.kept.values; best = w.kept.best; order = w.tally.order } };

    ghost invariant = { IsWalker };
}

impl<'a> Walker<'a> {
    ghost use Rattle.ring_walk.specs.WalkData.{WalkData, IsNew, false_under, broken_under};
    ghost use Rattle.ring_walk.specs.KeptData.{turned};
    ghost use Rattle.ring_walk.specs.Walk.{IsFirstAbove, IsStep, HasWalked, drawn, stand_of, weight_of, whole_weight};

    /// A walker of these clauses. The units are made true, and each other variable has the value of the assignment. It is refused
    /// if memory runs out, and so are more than 2^32 - 2 clauses.
    pub fn new(
        alloc: Global,
        vars: u32,
        clauses: &'a [Clause],
        units: &[Lit],
        first: &Assignment,
    ) -> Result<Walker<'a>, AllocError>
        requires small { vars ≤ 2 ^ 30 }
        requires on { All (All (IsOn vars)) clauses.now }
        requires units_on { All (IsOn vars) units.now }
        requires apart { has_opposites units.now ≡ false }
        ensures { IfOk result (IsNew vars clauses.now units.now first.now) }
    {
        if clauses.len() >= u32::MAX as usize {
            return Err(AllocError);
        }
        let fixed = fixed_by(alloc, vars, units)?;
        let values = values_of(alloc, vars, units, first)?;
        let tally = tally_of(alloc, vars, clauses, &values)?;
        let occurrences = occurrences_of(alloc, vars, clauses)?;
        let kept = Kept::new(alloc, values)?;
        Ok(Walker {
            clauses,
            fixed,
            kept,
            tally,
            occurrences,
        })
    }

    /// How many clauses are false under the assignment as it is now.
    pub fn false_count(&self) -> u64
        ensures count { result ≡ false_under self.now.clauses self.now.values }
        ensures order { result ≡ length self.now.order }
    {
        self.tally.false_count() as u64
    }

    /// How many clauses are true by the variable's literal alone, and so become false if it is flipped.
    pub fn broken_by(&self, var: u32) -> u32
        requires low { 1 ≤ var }
        requires high { var ≤ length self.now.values }
        ensures { result ≡ broken_under self.now.clauses self.now.values var }
    {
        self.tally.broken_by(var)
    }

    /// The best assignment of the last walk: that with the fewest false clauses, the first of them if there are several. Before any
    /// walk it is the assignment that the walker was made with.
    pub fn best(&self) -> &Assignment
        ensures { result.now ≡ self.now.best }
    {
        self.kept.best()
    }

    /// Gives a variable without a unit the other value.
    pub fn flip(&mut self, var: u32)
        requires low { 1 ≤ var }
        requires high { var ≤ length self.old.values }
        requires free { value_of self.old.fixed var ≡ false }
        ensures { self.new ≡ record self.old { values = turned self.old.values var; order = self.new.order } }
    {
        let lit = Lit::new(var, self.kept.values().value(var));
        turns::flip(
            &mut self.tally,
            self.occurrences.of(lit),
            self.occurrences.of(lit.not()),
            var,
        );
        self.kept.flip(var);
    }

    /// Walks so many steps, fewer only if nothing is false any more. Answers how many clauses are false under the best assignment
    /// that it met, the first included.
    pub fn walk(&mut self, steps: u64, generator: &mut Lcg64Xsh32) -> u64
        ensures { HasWalked self.old generator.old steps result self.new generator.new }
    {
        self.keep();
        let mut least = self.false_count();
        for _step in 0..steps {
            if self.false_count() == 0 {
                return least;
            }
            self.step(generator);
            let count = self.false_count();
            if count < least {
                least = count;
                self.keep();
            }
        }
        least
    }

    /// The assignment as it is now is the best one so far.
    fn keep(&mut self)
        ensures { self.new ≡ record self.old { best = self.old.values } }
    {
        self.kept.keep();
    }

    /// Draws a false clause, and flips one of its variables by the weights; nothing if each of them has a unit.
    fn step(&mut self, generator: &mut Lcg64Xsh32)
        requires { 0 < length self.old.order }
        ensures step { IsStep self.old.clauses self.old.fixed (stand_of self.old generator.old) (stand_of self.new generator.new) }
        ensures same { self.new ≡ record self.old { values = self.new.values; order = self.new.order } }
    {
        let lits = self.drawn(generator.next_word());
        let whole = self.whole_weight(lits);
        if whole == 0 {
            return;
        }
        let lit = self.first_above(lits, generator.next_word() as u64 % whole);
        self.flip(lit.var());
    }

    /// The false clause that a word draws.
    fn drawn(&self, word: u32) -> &'a [Lit]
        requires { 0 < length self.now.order }
        ensures at { result.now ≡ drawn self.now.clauses self.now.order word }
        ensures is_false { clause_true self.now.values result.now ≡ false }
        ensures on { All (IsOn (length self.now.values)) result.now }
        ensures small { length result.now < 2 ^ 32 }
    {
        let clause = self
            .tally
            .false_at(word as usize % self.tally.false_count());
        self.clauses[clause as usize].lits()
    }

    /// The weight of a literal: the heavier, the fewer clauses its variable breaks.
    fn weight(&self, lit: Lit) -> u64
        requires { lit.var ≤ length self.now.values }
        ensures value { result ≡ weight_of self.now.clauses self.now.fixed self.now.values lit }
        ensures small { result ≤ 2 ^ 16 }
    {
        if self.fixed.value(lit.var()) {
            return 0;
        }
        HEAVIEST >> self.broken_by(lit.var()).min(16)
    }

    /// The sum of the weights of a clause's literals.
    fn whole_weight(&self, lits: &[Lit]) -> u64
        requires on { All (IsOn (length self.now.values)) lits.now }
        requires small { length lits.now < 2 ^ 32 }
        ensures { result ≡ whole_weight self.now.clauses self.now.fixed self.now.values lits.now }
    {
        let mut sum = 0;
        for lit in lits {
            sum += self.weight(*lit);
        }
        sum
    }

    /// The first literal whose running sum of weights is above a number.
    fn first_above(&self, lits: &[Lit], number: u64) -> Lit
        requires on { All (IsOn (length self.now.values)) lits.now }
        requires number { number < whole_weight self.now.clauses self.now.fixed self.now.values lits.now }
        ensures first { IsFirstAbove (weight_of self.now.clauses self.now.fixed self.now.values) lits.now number result }
    {
        let mut left = number;
        for lit in lits {
            let weight = self.weight(*lit);
            if left < weight {
                return *lit;
            }
            left -= weight;
        }
        unreachable!()
    }
}
