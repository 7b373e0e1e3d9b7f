// The partner of a literal.
//
// For each clause with the literal its others are the set at hand. Each clause that has this set and one more literal raises the
// count of that literal, once for the set. So a clause costs no more than the numbers noted for one of its literals, and no two
// literals are compared that have nothing in common.
ghost use Rattle.std.specs.Prelude.{◌≡◌, ◌<◌, ◌≤◌, ◌+◌, ◌*◌, ◌^◌, ℕ, List, true, Contains, length, MatchOption, IfOk, IfErr, OnOk, All};
ghost use Rattle.std.specs.List.Sorted.{IsStrictlyIncreasing};
ghost use Rattle.sat_words.specs.Literal.{Literal, IsOn, code_of};
ghost use Rattle.sat_words.specs.Clause.{has};
ghost use Rattle.simp_base.specs.WorkState.{IsWork};
ghost use Rattle.simp_add.specs.Rule.{IsPartner, HasNoPartner};
ghost use Rattle.simp_add.specs.Counted.{count_of, may_pair, Raised, IsClear, AreTouched, AreCounted, CountedOne, HasRoom};

use crate::alike::{Alike, is_later, list_alike};
use crate::numbers::load;
use crate::tally::Tally;
use drat_text::{LineOut, LineStop};
use sat_words::Lit;
use simp_base::Work;
use std::alloc::AllocError;

/// Whether the literal may be a partner of the first one by this set: it is of greater code, and its negation is not in the set.
pub(crate) fn may_pair(first: Lit, rest: &[Lit], lit: Lit) -> bool
    ensures { result ≡ may_pair first rest.now lit }
{
    first.code() < lit.code() && !rest.contains(&lit.not())
}

/// Counts the set for each literal by which a clause goes beyond it, if that may be a partner.
fn raise_each(
    tally: &mut Tally,
    first: Lit,
    rest: &[Lit],
    stamp: u64,
    found: &[Alike],
) -> Result<(), AllocError>
    requires within { (a : Alike) → Contains found.now a → code_of a.lit < length tally.old.counts.items }
    requires room { HasRoom tally.old.counts.items }
    requires stamps { (j : Literal) → (count_of tally.old.counts.items j).stamp < stamp }
    requires touched { AreTouched first tally.old.counts.items tally.old.touched.items }
    ensures raised { OnOk result (Raised first rest.now stamp found.now tally.old.counts.items tally.new.counts.items) }
    ensures touched { OnOk result (AreTouched first tally.new.counts.items tally.new.touched.items) }
    ensures wide { OnOk result (length tally.new.counts.items ≡ length tally.old.counts.items) }
{
    for alike in found {
        if may_pair(first, rest, alike.lit) {
            tally.raise(first, alike.lit, stamp)?;
        }
    }
    Ok(())
}

/// Counts the set of the clause with this number, if it has one and is the first of its copies.
fn count_one<L: LineOut>(
    work: &Work<L>,
    lit: Lit,
    number: u64,
    tally: &mut Tally,
    rest: &mut Vec<Lit>,
    found: &mut Vec<Alike>,
) -> Result<(), LineStop>
    requires work { IsWork work.now }
    requires wide { length tally.old.counts.items ≡ 2 * (work.now.vars + 1) }
    requires room { HasRoom tally.old.counts.items }
    requires stamps { (j : Literal) → (count_of tally.old.counts.items j).stamp ≤ number }
    requires touched { AreTouched lit tally.old.counts.items tally.old.touched.items }
    ensures counted { OnOk result (CountedOne work.now lit number tally.old.counts.items tally.new.counts.items) }
    ensures touched { OnOk result (AreTouched lit tally.new.counts.items tally.new.touched.items) }
    ensures memory { IfErr result (λ stop. stop ≡ LineStop.Memory) }
{
    let _last = work.last_number();
    if !load(work, lit, number, rest)? {
        return Ok(());
    }
    list_alike(work, rest.as_slice(), found)?;
    if is_later(found.as_slice(), lit, number) {
        return Ok(());
    }
    match raise_each(tally, lit, rest.as_slice(), number + 1, found.as_slice()) {
        Ok(()) => Ok(()),
        Err(_) => Err(LineStop::Memory),
    }
}

/// Counts the sets of the clauses with these numbers.
fn count_all<L: LineOut>(
    work: &Work<L>,
    lit: Lit,
    numbers: &[u64],
    tally: &mut Tally,
) -> Result<(), LineStop>
    requires work { IsWork work.now }
    requires wide { length tally.old.counts.items ≡ 2 * (work.now.vars + 1) }
    requires clear { IsClear tally.old.counts.items }
    requires none { length tally.old.touched.items ≡ 0 }
    requires rising { IsStrictlyIncreasing numbers.now }
    ensures counted { OnOk result (AreCounted work.now lit numbers.now tally.new.counts.items) }
    ensures touched { OnOk result (AreTouched lit tally.new.counts.items tally.new.touched.items) }
    ensures wide { OnOk result (length tally.new.counts.items ≡ length tally.old.counts.items) }
    ensures memory { IfErr result (λ stop. stop ≡ LineStop.Memory) }
{
    let mut rest = Vec::new(work.alloc());
    let mut found = Vec::new(work.alloc());
    for number in numbers {
        match count_one(work, lit, *number, tally, &mut rest, &mut found) {
            Ok(()) => {}
            Err(stop) => return Err(stop),
        }
    }
    Ok(())
}

/// The partner of the literal, if it has one. The numbers are those of the clauses with the literal.
pub(crate) fn partner_of<L: LineOut>(
    work: &Work<L>,
    lit: Lit,
    numbers: &[u64],
    tally: &mut Tally,
) -> Result<Option<Lit>, LineStop>
    requires wide { length tally.old.counts.items ≡ 2 * (work.now.vars + 1) }
    requires clear { IsClear tally.old.counts.items }
    requires none { length tally.old.touched.items ≡ 0 }
    requires rising { IsStrictlyIncreasing numbers.now }
    requires every { (n : ℕ) (c : List Literal) → Contains work.now.clauses (n, c) → has c lit ≡ true → Contains numbers.now n }
    ensures partner { IfOk result (λ o. MatchOption o (HasNoPartner work.now lit) (λ k. IsPartner work.now lit k)) }
    ensures wide { OnOk result (length tally.new.counts.items ≡ length tally.old.counts.items) }
    ensures clear { OnOk result (IsClear tally.new.counts.items) }
    ensures none { OnOk result (length tally.new.touched.items ≡ 0) }
    ensures memory { IfErr result (λ stop. stop ≡ LineStop.Memory) }
{
    let _clauses = work.clauses();
    count_all(work, lit, numbers, tally)?;
    let best = tally.best();
    tally.clear(lit);
    Ok(best)
}
