// The clauses of two literals with their common sets.
ghost use Rattle.std.specs.Prelude.{◌≡◌, ◌<◌, ◌++◌, ◌∷◌, [], ℕ, List, true, Contains, IfOk, IfErr, OnOk};
ghost use Rattle.std.specs.List.{list_any};
ghost use Rattle.std.specs.List.Sorted.{IsStrictlyIncreasing};
ghost use Rattle.sat_words.specs.Literal.{Literal, IsOn, code_of, same};
ghost use Rattle.sat_words.specs.Clause.{has};
ghost use Rattle.simp_base.specs.WorkState.{IsWork};
ghost use Rattle.simp_add.specs.Alike.{numbers_with};
ghost use Rattle.simp_add.specs.Counted.{is_paired};
ghost use Rattle.simp_add.specs.Shared.{AreShared, SharesOne};

use crate::alike::{Alike, is_later, list_alike};
use crate::numbers::load;
use crate::partner::may_pair;
use drat_text::{LineOut, LineStop};
use sat_words::Lit;
use simp_base::Work;
use std::alloc::{AllocError, Global};

/// The clauses that are replaced, by their numbers.
#[derive(Drop)]
pub(crate) struct Shared {
    /// One of the first literal for each common set, the first of its copies, ascending.
    pub(crate) firsts: Vec<u64>,
    /// All copies of clauses of both literals with a common set.
    pub(crate) gone: Vec<u64>,
}

/// Whether one of the clauses has the literal.
fn has_lit(found: &[Alike], lit: Lit) -> bool
    ensures { result ≡ list_any (λ a. same a.lit lit) found.now }
{
    found.iter().any(|alike| alike.lit == lit)
}

/// Whether one of the clauses has the literal, and that may be a partner.
fn is_paired(first: Lit, rest: &[Lit], found: &[Alike], lit: Lit) -> bool
    ensures { result ≡ is_paired first rest.now found.now lit }
{
    may_pair(first, rest, lit) && has_lit(found, lit)
}

/// Puts the numbers of the clauses that have one of the two literals.
fn put_numbers(
    gone: &mut Vec<u64>,
    found: &[Alike],
    lit: Lit,
    partner: Lit,
) -> Result<(), AllocError>
    ensures { OnOk result (gone.new.items ≡ gone.old.items ++ numbers_with lit partner found.now) }
{
    for alike in found {
        if alike.lit == lit || alike.lit == partner {
            gone.push(alike.number)?;
        }
    }
    Ok(())
}

impl Shared {
    /// No clauses.
    fn none(alloc: Global) -> Shared
        ensures firsts { result.firsts.items ≡ [] }
        ensures gone { result.gone.items ≡ [] }
    {
        Shared {
            firsts: Vec::new(alloc),
            gone: Vec::new(alloc),
        }
    }

    /// Puts the clause with this number, and with it all clauses of both literals with its set.
    fn put(&mut self, number: u64, found: &[Alike], lit: Lit, partner: Lit) -> Result<(), LineStop>
        ensures firsts { OnOk result (self.new.firsts.items ≡ self.old.firsts.items ++ number ∷ []) }
        ensures gone { OnOk result (self.new.gone.items ≡ self.old.gone.items ++ numbers_with lit partner found.now) }
        ensures memory { IfErr result (λ stop. stop ≡ LineStop.Memory) }
    {
        if self.firsts.push(number).is_err() {
            return Err(LineStop::Memory);
        }
        match put_numbers(&mut self.gone, found, lit, partner) {
            Ok(()) => Ok(()),
            Err(_) => Err(LineStop::Memory),
        }
    }
}

/// Puts the clause with this number if its others are a common set that counts.
fn share_one<L: LineOut>(
    work: &Work<L>,
    lit: Lit,
    partner: Lit,
    number: u64,
    shared: &mut Shared,
    rest: &mut Vec<Lit>,
    found: &mut Vec<Alike>,
) -> Result<(), LineStop>
    requires work { IsWork work.now }
    requires after { code_of lit < code_of partner }
    ensures shares { OnOk result (SharesOne work.now lit partner number shared.old.firsts.items shared.old.gone.items
        shared.new.firsts.items shared.new.gone.items) }
    ensures memory { IfErr result (λ stop. stop ≡ LineStop.Memory) }
{
    if !load(work, lit, number, rest)? {
        return Ok(());
    }
    list_alike(work, rest.as_slice(), found)?;
    if is_later(found.as_slice(), lit, number) {
        return Ok(());
    }
    if !is_paired(lit, rest.as_slice(), found.as_slice(), partner) {
        return Ok(());
    }
    shared.put(number, found.as_slice(), lit, partner)?;
    Ok(())
}

/// The clauses of the two literals with their common sets. The numbers are those of the clauses with the first one.
pub(crate) fn shared_of<L: LineOut>(
    work: &Work<L>,
    lit: Lit,
    partner: Lit,
    numbers: &[u64],
) -> Result<Shared, LineStop>
    requires after { code_of lit < code_of partner }
    requires rising { IsStrictlyIncreasing numbers.now }
    requires every { (n : ℕ) (c : List Literal) → Contains work.now.clauses (n, c) → has c lit ≡ true → Contains numbers.now n }
    ensures shared { IfOk result (λ shared. AreShared work.now lit partner shared.firsts.items shared.gone.items) }
    ensures memory { IfErr result (λ stop. stop ≡ LineStop.Memory) }
{
    let _clauses = work.clauses();
    let mut shared = Shared::none(work.alloc());
    let mut rest = Vec::new(work.alloc());
    let mut found = Vec::new(work.alloc());
    for number in numbers {
        match share_one(
            work,
            lit,
            partner,
            *number,
            &mut shared,
            &mut rest,
            &mut found,
        ) {
            Ok(()) => {}
            Err(stop) => return Err(stop),
        }
    }
    Ok(shared)
}
