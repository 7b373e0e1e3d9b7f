//! What hints show.
ghost use Rattle.std.specs.Prelude.{◌≡◌, ◌⊎◌, ℕ, Bool, List, [], ◌∷◌, Some, true, false, Contains, map};
ghost use Rattle.sat_words.specs.Literal.{Literal, opposite};
ghost use Rattle.sat_words.specs.Clause.{has, same_set};
ghost use Rattle.rup_model.specs.Rup.{rup};
ghost use Rattle.rup_model.specs.Hints.{Numbered, with_lit, hinted_from, hinted};
ghost use Rattle.rup_model.specs.Journal.{lines};
ghost use Rattle.rup_model.specs.NumberedLines.{line_of, numbered_lines};
ghost use Rattle.rup_model.specs.declared.journal.Entry.{Entry};

/// A clause that hints show to follow is RUP over any clauses among which each named one stands.
pub fn hinted_follows()
    ensures { (at : Numbered) (G : List (List Literal)) (c : List Literal) (ns : List ℕ)
        → ((n : ℕ) (d : List Literal) → at n ≡ Some d → Contains G d) → hinted at c ns ≡ true → rup G c ≡ true }
{}

/// Hints over some numbered clauses are hints over more.
pub fn hinted_over_more()
    ensures { (at more : Numbered) (c : List Literal) (ns : List ℕ)
        → ((n : ℕ) (d : List Literal) → at n ≡ Some d → more n ≡ Some d) → hinted at c ns ≡ true → hinted more c ns ≡ true }
{}

/// Hints over some numbered clauses are hints wherever each stands under its number as a set of literals, in any order.
pub fn hinted_over_the_same_sets()
    ensures { (at more : Numbered) (c : List Literal) (ns : List ℕ)
        → ((n : ℕ) (d : List Literal) → at n ≡ Some d → (e : List Literal) × (more n ≡ Some e) × (same_set d e ≡ true)) → hinted at c ns ≡ true → hinted more c ns ≡ true }
{}

/// A clause whose literals are all false is a last hint.
pub fn a_false_clause_hints()
    ensures { (at : Numbered) (A : Literal → Bool) (n : ℕ) (c : List Literal) → at n ≡ Some c
        → ((k : Literal) → has c k ≡ true → A (opposite k) ≡ true) → hinted_from at A (n ∷ []) ≡ true }
{}

/// A clause with one literal that has no truth value, whose others are false, is a hint before others.
pub fn a_forced_literal_hints()
    ensures { (at : Numbered) (A : Literal → Bool) (n m : ℕ) (ns : List ℕ) (c : List Literal) (l : Literal) → at n ≡ Some c → has c l ≡ true
        → ((k : Literal) → has c k ≡ true → (k ≡ l) ⊎ (A (opposite k) ≡ true)) → A l ≡ false → A (opposite l) ≡ false
        → hinted_from at (with_lit l A) (m ∷ ns) ≡ true → hinted_from at A (n ∷ m ∷ ns) ≡ true }
{}

/// The numbered lines of a journal, without numbers and hints, are its lines.
pub fn numbered_lines_are_the_lines()
    ensures { (F : List (List Literal)) (J : List Entry) → map line_of (numbered_lines F J) ≡ lines F J }
{}
