// A count for each literal, by code: in how many common sets it is the second one.
//
// A clause may have copies. A count has the stamp of the set that raised it last, so that one set raises it once.
ghost use Rattle.std.specs.Prelude.{◌≡◌, ◌≢◌, ◌<◌, ◌≤◌, ◌+◌, ◌*◌, ◌^◌, ◌⊎◌, List, length, slice_set, Contains, IfOk, OnOk, IfSome};
ghost use Rattle.sat_words.specs.Literal.{Literal, code_of};
ghost use Rattle.simp_add.specs.Counted.{count_of, raised, nothing, IsClear, AreTouched, IsBetter, IsBest};

use sat_words::Lit;
use std::alloc::{AllocError, Global};

/// How many sets were counted for a literal.
#[derive(Clone, Copy)]
pub(crate) struct Count {
    /// How many.
    pub(crate) sets: u64,
    /// The stamp of the last one; 0 before the first.
    pub(crate) stamp: u64,
}

/// No set was counted.
const NOTHING: Count = Count { sets: 0, stamp: 0 };

/// A literal gets a partner only if they have so many common sets.
const FEWEST: u64 = 3;

/// The counts by code, and the literals that have one.
#[derive(Drop)]
pub(crate) struct Tally {
    pub(crate) counts: Vec<Count>,
    pub(crate) touched: Vec<Lit>,
}

/// The count once the set with this stamp was counted.
fn raised(count: Count, stamp: u64) -> Count
    requires { count.stamp ≢ stamp → count.sets + 1 < 2 ^ 64 }
    ensures { result ≡ raised count stamp }
{
    if count.stamp == stamp {
        count
    } else {
        Count {
            sets: count.sets + 1,
            stamp,
        }
    }
}

/// The literal of less code.
fn lesser(first: Lit, second: Lit) -> Lit
    ensures { ((result ≡ first) × (code_of first < code_of second)) ⊎ ((result ≡ second) × (code_of second ≤ code_of first)) }
{
    if first.code() < second.code() {
        first
    } else {
        second
    }
}

/// Lists the literal if no set was counted for it before.
fn touch(touched: &mut Vec<Lit>, lit: Lit, sets: u64) -> Result<(), AllocError>
    ensures kept { OnOk result ((j : Literal) → Contains touched.old.items j → Contains touched.new.items j) }
    ensures only { OnOk result ((j : Literal) → Contains touched.new.items j → Contains touched.old.items j ⊎ (lit ≡ j)) }
    ensures there { OnOk result (sets ≡ 0 → Contains touched.new.items lit) }
{
    if sets == 0 {
        touched.push(lit)?;
    }
    Ok(())
}

impl Tally {
    /// No literal has a count. There is one for each literal of the variables up to this one.
    pub(crate) fn new(alloc: Global, vars: u32) -> Result<Tally, AllocError>
        ensures clear { IfOk result (λ t. IsClear t.counts.items) }
        ensures wide { IfOk result (λ t. length t.counts.items ≡ 2 * (vars + 1)) }
        ensures none { IfOk result (λ t. length t.touched.items ≡ 0) }
    {
        let counts = vec![in alloc; NOTHING; 2 * (vars as usize + 1)]?;
        Ok(Tally {
            counts,
            touched: Vec::new(alloc),
        })
    }

    /// One variable more.
    pub(crate) fn widen(&mut self) -> Result<(), AllocError>
        requires { IsClear self.old.counts.items }
        ensures clear { OnOk result (IsClear self.new.counts.items) }
        ensures wide { OnOk result (length self.new.counts.items ≡ length self.old.counts.items + 2) }
        ensures none { OnOk result (self.new.touched ≡ self.old.touched) }
    {
        self.counts.push(NOTHING)?;
        self.counts.push(NOTHING)?;
        Ok(())
    }

    /// Counts the set with this stamp for the literal.
    pub(crate) fn raise(&mut self, first: Lit, lit: Lit, stamp: u64) -> Result<(), AllocError>
        requires within { code_of lit < length self.old.counts.items }
        requires after { code_of first < code_of lit }
        requires room { (count_of self.old.counts.items lit).stamp ≢ stamp → (count_of self.old.counts.items lit).sets + 1 < 2 ^ 64 }
        requires touched { AreTouched first self.old.counts.items self.old.touched.items }
        ensures counts { OnOk result (self.new.counts.items ≡ slice_set self.old.counts.items (code_of lit)
            (raised (count_of self.old.counts.items lit) stamp)) }
        ensures touched { OnOk result (AreTouched first self.new.counts.items self.new.touched.items) }
    {
        let count = self.count(lit);
        touch(&mut self.touched, lit, count.sets)?;
        self.counts[lit.code() as usize] = raised(count, stamp);
        Ok(())
    }

    /// The count of the literal.
    fn count(&self, lit: Lit) -> Count
        requires { code_of lit < length self.now.counts.items }
        ensures { result ≡ count_of self.now.counts.items lit }
    {
        self.counts[lit.code() as usize]
    }

    /// How many sets were counted for the literal.
    fn sets(&self, lit: Lit) -> u64
        requires { code_of lit < length self.now.counts.items }
        ensures { result ≡ (count_of self.now.counts.items lit).sets }
    {
        self.count(lit).sets
    }

    /// The better one: that with more sets, at least three; of two with as many that of less code.
    fn better(&self, best: Option<Lit>, lit: Lit) -> Option<Lit>
        requires within { code_of lit < length self.now.counts.items }
        requires best { IfSome best (λ k. code_of k < length self.now.counts.items) }
        ensures { IsBetter self.now.counts.items best lit result }
    {
        let sets = self.sets(lit);
        if sets < FEWEST {
            return best;
        }
        let Some(other) = best else {
            return Some(lit);
        };
        let most = self.sets(other);
        if sets > most {
            return Some(lit);
        }
        if sets == most {
            return Some(lesser(lit, other));
        }
        Some(other)
    }

    /// Of the literals with a count of at least three the one with the greatest; among equals that of least code.
    pub(crate) fn best(&self) -> Option<Lit>
        requires within { (j : Literal) → Contains self.now.touched.items j → code_of j < length self.now.counts.items }
        ensures { IsBest self.now.counts.items self.now.touched.items result }
    {
        let mut best = None;
        for lit in self.touched.as_slice() {
            best = self.better(best, *lit);
        }
        best
    }

    /// Forgets all counts.
    pub(crate) fn clear(&mut self, first: Lit)
        requires touched { AreTouched first self.old.counts.items self.old.touched.items }
        ensures clear { IsClear self.new.counts.items }
        ensures wide { length self.new.counts.items ≡ length self.old.counts.items }
        ensures none { length self.new.touched.items ≡ 0 }
    {
        clear_all(&mut self.counts, self.touched.as_slice());
        self.touched.clear();
    }
}

/// Sets the counts of these literals back.
fn clear_all(counts: &mut Vec<Count>, lits: &[Lit])
    requires { (j : Literal) → Contains lits.now j → code_of j < length counts.old.items }
    ensures wide { length counts.new.items ≡ length counts.old.items }
    ensures there { (j : Literal) → Contains lits.now j → count_of counts.new.items j ≡ nothing }
    ensures others { (j : Literal) → count_of counts.old.items j ≡ nothing → count_of counts.new.items j ≡ nothing }
{
    for lit in lits {
        counts[lit.code() as usize] = NOTHING;
    }
}
