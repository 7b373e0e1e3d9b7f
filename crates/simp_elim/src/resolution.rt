// The resolvents of clauses on a literal, as long as they are few and short.
//
// Whether a resolvent is a tautology is known from its two clauses, before it is made.
ghost use Rattle.std.specs.Prelude.{◌≡◌, ◌++◌, true, false, List, [], ◌∷◌, IfOk, OnOk, MatchOption, map};
ghost use Rattle.std.specs.List.{list_any};
ghost use Rattle.sat_words.specs.Literal.{Literal, opposite};
ghost use Rattle.simp_elim.specs.Resolution.{occurs, without, resolved, resolved_with, clashes};
ghost use Rattle.simp_elim.specs.Resolution.{resolvents as all_resolvents};
ghost use Rattle.simp_elim.specs.Bounds.{within, Extends};
ghost use Rattle.simp_elim.specs.Occurring.{clause_at, OccursIn};

use drat_text::LineOut;
use sat_words::{Clause, Lit};
use simp_base::Work;
use std::alloc::{AllocError, Global};

/// No resolvent may have more literals.
const LONGEST: usize = 100;

/// Puts the literals of the list but one.
fn put_others(all: &mut Vec<Lit>, lits: &[Lit], but: Lit) -> Result<(), AllocError>
    ensures { OnOk result (all.new.items ≡ all.old.items ++ without but lits.now) }
{
    for lit in lits {
        if but != *lit {
            all.push(*lit)?;
        }
    }
    Ok(())
}

/// The resolvent of the first clause, with the literal, and of the second one, with its negation.
fn resolve(alloc: Global, on: Lit, first: &[Lit], second: &[Lit]) -> Result<Clause, AllocError>
    ensures { IfOk result (λ c. c ≡ resolved on first.now second.now) }
{
    let mut all = Vec::new(alloc);
    put_others(&mut all, first, on)?;
    put_others(&mut all, second, on.not())?;
    let made = Clause::from_lits(alloc, all.as_slice())?;
    Ok(made)
}

/// Whether the literal is not the negation at hand, and has its own negation in the first clause.
fn clashes(on: Lit, first: &[Lit], lit: Lit) -> bool
    ensures { result ≡ clashes on first.now lit }
{
    on.not() != lit && first.contains(&lit.not())
}

/// Whether that resolvent is a tautology, neither of the clauses being one.
fn clash(on: Lit, first: &[Lit], second: &[Lit]) -> bool
    ensures { result ≡ list_any (clashes on first.now) second.now }
{
    second.iter().any(|lit| clashes(on, first, *lit))
}

/// Puts that resolvent, if it is no tautology, unless there are then more than `most`, or it is too long. Answers whether
/// the bounds are kept.
fn add_resolvent(
    alloc: Global,
    made: &mut Vec<Clause>,
    on: Lit,
    first: &[Lit],
    second: &[Lit],
    most: usize,
) -> Result<bool, AllocError>
    requires within { within most made.old.items ≡ true }
    requires first { occurs on first.now ≡ true }
    requires second { occurs (opposite on) second.now ≡ true }
    ensures { IfOk result (λ all. Extends most made.old.items (resolved_with on (second.now ∷ []) first.now) made.new.items all) }
{
    if clash(on, first, second) {
        return Ok(true);
    }
    let clause = resolve(alloc, on, first, second)?;
    if made.len() >= most || clause.lits().len() > LONGEST {
        return Ok(false);
    }
    made.push(clause)?;
    Ok(true)
}

/// Puts the resolvents of one clause with the clauses of these numbers, as long as the bounds are kept.
fn add_resolvents<L: LineOut>(
    work: &Work<L>,
    made: &mut Vec<Clause>,
    on: Lit,
    first: &[Lit],
    others: &[u64],
    most: usize,
) -> Result<bool, AllocError>
    requires within { within most made.old.items ≡ true }
    requires first { occurs on first.now ≡ true }
    requires others { OccursIn work.now (opposite on) others.now }
    ensures { IfOk result (λ all. Extends most made.old.items (resolved_with on (map (clause_at work.now.clauses) others.now) first.now) made.new.items all) }
{
    let _clauses = work.clauses();
    for other in others {
        let Some(second) = work.clause(*other) else {
            // `others`: each number is that of a clause that is alive
            unreachable!()
        };
        if !add_resolvent(work.alloc(), made, on, first, second.lits(), most)? {
            return Ok(false);
        }
    }
    Ok(true)
}

/// The resolvents of the clauses with the first numbers and those with the second ones that are no tautologies, or nothing
/// if there are more of them than `most`, or one is too long.
pub(crate) fn resolvents<L: LineOut>(
    work: &Work<L>,
    on: Lit,
    firsts: &[u64],
    seconds: &[u64],
    most: usize,
) -> Result<Option<Vec<Clause>>, AllocError>
    requires firsts { OccursIn work.now on firsts.now }
    requires seconds { OccursIn work.now (opposite on) seconds.now }
    ensures { IfOk result (λ o. MatchOption o
        (within most (all_resolvents on (map (clause_at work.now.clauses) firsts.now) (map (clause_at work.now.clauses) seconds.now)) ≡ false)
        (λ made. Extends most [] (all_resolvents on (map (clause_at work.now.clauses) firsts.now) (map (clause_at work.now.clauses) seconds.now)) made.items true)) }
{
    let _clauses = work.clauses();
    let mut made = Vec::new(work.alloc());
    for first in firsts {
        let Some(clause) = work.clause(*first) else {
            // `firsts`: each number is that of a clause that is alive
            unreachable!()
        };
        if !add_resolvents(work, &mut made, on, clause.lits(), seconds, most)? {
            return Ok(None);
        }
    }
    Ok(Some(made))
}
