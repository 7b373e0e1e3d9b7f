// What a flip does to the counts: the clauses that have the literal that becomes true, one after another, and then those that have
// its negation. Between the two both are true, so that each half is of a set of true literals.
ghost use Rattle.std.specs.Prelude.{◌≡◌, ◌<◌, ◌≤◌, ◌+◌, ◌^◌, ℕ, Bool, true, false, List, All, length, slice_index_or, if◌then◌else◌};
ghost use Rattle.ring_walk.specs.Tally.{CanLower, count_at, raised, lowered};
ghost use Rattle.ring_walk.specs.Truths.{is_in, IsOnce};
ghost use Rattle.std.specs.List.{count_by};
ghost use Rattle.sat_words.specs.Literal.{Literal, IsOn, opposite};
ghost use Rattle.sat_words.specs.Clause.{distinct_lits};
ghost use Rattle.ring_walk.specs.Truths.{counts_of, flipped, IsFlip};

use crate::tally::Tally;

/// A literal of the variable became true in each of these clauses.
pub(crate) fn raise_all(tally: &mut Tally, clauses: &[u32], var: u32)
    requires var { var ≤ tally.old.vars }
    requires low { (k : ℕ) → k < length clauses.now → slice_index_or clauses.now k 0 < length tally.old.counts }
    requires once { IsOnce clauses.now }
    requires few { (i : ℕ) → i < length tally.old.counts → (count_at tally.old.counts i).trues + 1 < 2 ^ 32 }
    requires small { (i : ℕ) → i < length tally.old.counts → (count_at tally.old.counts i).sum + var < 2 ^ 64 }
    ensures vars { tally.new.vars ≡ tally.old.vars }
    ensures len { length tally.new.counts ≡ length tally.old.counts }
    ensures each { (i : ℕ) → i < length tally.old.counts → count_at tally.new.counts i ≡ (if is_in clauses.now i then raised (count_at tally.old.counts i) var else count_at tally.old.counts i) }
{
    for clause in clauses {
        tally.raise(*clause, var);
    }
}

/// A literal of the variable became false in each of these clauses.
pub(crate) fn lower_all(tally: &mut Tally, clauses: &[u32], var: u32)
    requires low { (k : ℕ) → k < length clauses.now → slice_index_or clauses.now k 0 < length tally.old.counts }
    requires once { IsOnce clauses.now }
    requires can { (k : ℕ) → k < length clauses.now → CanLower tally.old.vars (count_at tally.old.counts (slice_index_or clauses.now k 0)) var }
    ensures vars { tally.new.vars ≡ tally.old.vars }
    ensures len { length tally.new.counts ≡ length tally.old.counts }
    ensures each { (i : ℕ) → i < length tally.old.counts → count_at tally.new.counts i ≡ (if is_in clauses.now i then lowered (count_at tally.old.counts i) var else count_at tally.old.counts i) }
{
    for clause in clauses {
        tally.lower(*clause, var);
    }
}

/// The literal becomes true, and its negation false: `up` names the clauses that have the literal, `down` those that have its
/// negation. Whatever clauses and true literals the counts were of, they are then of the same clauses and of what is true then.
pub(crate) fn flip(tally: &mut Tally, up: &[u32], down: &[u32], var: u32)
    requires known { (G : List (List Literal)) × (T : Literal → Bool) × (l : Literal) × IsFlip tally.old up.now down.now var G T l }
    requires few { (i : ℕ) → i < length tally.old.counts → (count_at tally.old.counts i).trues + 1 < 2 ^ 32 }
    requires small { (i : ℕ) → i < length tally.old.counts → (count_at tally.old.counts i).sum + var < 2 ^ 64 }
    ensures vars { tally.new.vars ≡ tally.old.vars }
    ensures counts { (G : List (List Literal)) (T : Literal → Bool) (l : Literal) → IsFlip tally.old up.now down.now var G T l → tally.new.counts ≡ counts_of (flipped l T) G }
{
    raise_all(tally, up, var);
    lower_all(tally, down, var);
}
