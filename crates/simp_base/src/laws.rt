//! What follows of a work's states; the calls compute nothing.
ghost use Rattle.std.specs.Prelude.{◌≡◌, ◌⊎◌, ◌++◌, ℕ, List, true, Contains};
ghost use Rattle.sat_words.specs.Literal.{Literal, opposite, same};
ghost use Rattle.sat_words.specs.Clause.{has, includes, same_set};
ghost use Rattle.rup_model.specs.Rup.{rup, rat};
ghost use Rattle.rup_model.specs.declared.journal.Entry.{Entry};
ghost use Rattle.rup_model.specs.Log.{Refutes};
ghost use Rattle.rup_model.specs.Journal.{lines};
ghost use Rattle.drat_text.specs.JournalText.{Origin};
ghost use Rattle.simp_base.specs.WorkState.{WorkState, IsWork, known};
ghost use Rattle.simp_base.specs.Calls.{Deleted};
ghost use Rattle.simp_base.specs.Log.{KeepsLog, Continues, Grows, Stands, journal_of};
ghost use Rattle.simp_base.specs.Lifted.{Lifted};

/// If models lift from each of two steps, they lift from both.
pub fn lifted_composes()
    ensures { (a b c : WorkState) → Lifted a b → Lifted b c → Lifted a c }
{}

/// If nothing is done, models lift.
pub fn lifted_itself()
    ensures { (a : WorkState) → Lifted a a }
{}

/// A log that is kept by each of two steps is kept by both.
pub fn logs_compose()
    ensures { (a b c : WorkState) → KeepsLog a b → KeepsLog b c → KeepsLog a c }
{}

/// A log that goes on over the same variables is one of a work that may have grown.
pub fn continuing_grows()
    ensures { (entries : List Entry) (a b : WorkState) → Continues entries a b → Grows entries a b }
{}

/// If a work may have grown in each of two steps, it may have in both, by the entries of the one and then of the other.
pub fn growing_composes()
    ensures { (first later : List Entry) (a b c : WorkState) → Grows first a b → Grows later b c → Grows (first ++ later) a c }
{}

/// If the empty clause was added, the log refutes the formula.
pub fn ended_refutes()
    ensures { (o : Origin) (mine : List Entry) (w : WorkState) → Stands o mine w → w.ended ≡ true → Refutes o.formula (lines o.formula (journal_of o mine)) }
{}

/// The deletion of a clause that follows by unit propagation from what is known afterwards needs no entry of the stack.
pub fn implied_clauses_lift()
    ensures { (old new : WorkState) (number : ℕ) (h : Deleted old new number) → IsWork old → rup (known new) h.clause ≡ true → Lifted old new }
{}

/// The deletion of a clause that contains one that is known afterwards needs no entry of the stack.
pub fn contained_clauses_lift()
    ensures { (old new : WorkState) (number : ℕ) (h : Deleted old new number) (d : List Literal) → IsWork old → Contains (known new) d → includes h.clause d ≡ true → Lifted old new }
{}

/// Of two clauses, one with a literal and one with its negation, follows every clause that has all their other literals
/// (self-subsuming resolution).
pub fn strengthened_clauses_follow()
    ensures { (G : List (List Literal)) (c d r : List Literal) (l : Literal) → Contains G c → Contains G d → has c l ≡ true
        → ((k : Literal) → has c k ≡ true → (same l k ≡ true) ⊎ (has r k ≡ true)) → ((k : Literal) → has d k ≡ true → (k ≡ opposite l) ⊎ (has r k ≡ true)) → rup G r ≡ true }
{}

/// A clause that has all literals of one that is RUP is RUP.
pub fn wider_clauses_follow()
    ensures { (G : List (List Literal)) (c d : List Literal) → ((l : Literal) → has c l ≡ true → has d l ≡ true) → rup G c ≡ true → rup G d ≡ true }
{}

/// A clause that is RAT over some clauses is RAT over others if each of either stands among the others as a set of literals.
/// More clauses, or fewer, would not do.
pub fn rat_over_the_same_sets()
    ensures { (G H : List (List Literal)) (c : List Literal)
        → ((d : List Literal) → Contains G d → (e : List Literal) × Contains H e × (same_set d e ≡ true))
        → ((d : List Literal) → Contains H d → (e : List Literal) × Contains G e × (same_set d e ≡ true))
        → rat G c ≡ true → rat H c ≡ true }
{}
