//! What a sound journal keeps as entries come, and what it leaves alive.
ghost use Rattle.std.specs.Prelude.{◌≡◌, ◌<◌, ℕ, List, [], ◌∷◌, ◌++◌, Some, true, false, All, Contains};
ghost use Rattle.sat_words.specs.Literal.{Literal};
ghost use Rattle.std.specs.List.{list_any};
ghost use Rattle.sat_words.specs.Clause.{same_set, is_empty, two_or_more};
ghost use Rattle.sat_words.specs.declared.line.Line.TheVariants.{Add as AddLine};
ghost use Rattle.rup_model.specs.Rup.{rup};
ghost use Rattle.rup_model.specs.Log.{alive, copies, is_valid, Refutes};
ghost use Rattle.rup_model.specs.declared.journal.TheConstants.{RULER_RING};
ghost use Rattle.rup_model.specs.declared.journal.Addition.{Addition};
ghost use Rattle.rup_model.specs.declared.journal.Round.{Round as RoundStart};
ghost use Rattle.rup_model.specs.declared.journal.Entry.{Entry};
ghost use Rattle.rup_model.specs.declared.journal.Entry.TheVariants.{Add, Del, Reduce, Round};
ghost use Rattle.rup_model.specs.Journal.{book, copies_in, lines, Fits, added, is_told, LogSound, ring_of};
ghost use Rattle.rup_model.specs.Opening.{is_rulers, IsRulersPart, IsOpening, program_opening, ruler_part, rings_part};

/// While no entry adds the empty clause, an addition under the next number that is RUP, or RAT on its first literal, over
/// what is alive keeps the log sound. The formula may hold the empty clause.
pub fn an_addition_keeps_the_log()
    ensures valid { (F : List (List Literal)) (J : List Entry) (x : Addition) → LogSound F J → list_any is_empty (added J) ≡ false
        → x.number ≡ (book F J).next → is_valid (alive F (lines F J)) (AddLine x.lits) ≡ true → LogSound F (J ++ Add x ∷ []) }
    ensures rup { (F : List (List Literal)) (J : List Entry) (x : Addition) → LogSound F J → list_any is_empty (added J) ≡ false
        → x.number ≡ (book F J).next → rup (alive F (lines F J)) x.lits ≡ true → LogSound F (J ++ Add x ∷ []) }
{}

/// While no entry adds the empty clause, the deletion of a clause of two literals or more that is alive keeps the log sound.
pub fn a_deletion_keeps_the_log()
    ensures { (F : List (List Literal)) (J : List Entry) (r n : ℕ) (c : List Literal) → LogSound F J → list_any is_empty (added J) ≡ false
        → (book F J).clause n ≡ Some c → two_or_more c ≡ true → LogSound F (J ++ Del r n ∷ []) }
{}

/// While no entry adds the empty clause, the note that a ring reduces keeps the log sound.
pub fn a_reduction_keeps_the_log()
    ensures { (F : List (List Literal)) (J : List Entry) (r : ℕ) → LogSound F J → list_any is_empty (added J) ≡ false → LogSound F (J ++ Reduce r ∷ []) }
{}

/// While no entry adds the empty clause, an entry that begins a round keeps the log sound.
pub fn a_round_keeps_the_log()
    ensures { (F : List (List Literal)) (J : List Entry) (x : RoundStart) → LogSound F J → list_any is_empty (added J) ≡ false → LogSound F (J ++ Round x ∷ []) }
{}

/// A sound log to which the empty clause was added refutes the formula.
pub fn a_log_with_the_empty_clause_refutes()
    ensures { (F : List (List Literal)) (J : List Entry) → LogSound F J → list_any is_empty (added J) ≡ true → Refutes F (lines F J) }
{}

/// Each clause has as many numbers as its lines leave copies.
pub fn numbers_are_copies()
    ensures { (F : List (List Literal)) (J : List Entry) → Fits F J → (c : List Literal) → copies c (alive F (lines F J)) ≡ copies_in c (book F J) }
{}

/// A clause that is RUP over clauses that stand as sets under some numbers is RUP over what the lines leave alive.
pub fn holds_over_what_is_alive()
    ensures { (F : List (List Literal)) (J : List Entry) (K : List (List Literal)) (c : List Literal) → Fits F J
        → ((d : List Literal) → Contains K d → (n : ℕ) × (e : List Literal) × ((book F J).clause n ≡ Some e) × (same_set d e ≡ true))
        → rup K c ≡ true → rup (alive F (lines F J)) c ≡ true }
{}

/// A unit that is in the formula or was added is alive under some number.
pub fn told_units_are_alive()
    ensures { (F : List (List Literal)) (J : List Entry) (l : Literal) → Fits F J → is_told F J l ≡ true
        → (n : ℕ) × (c : List Literal) × ((book F J).clause n ≡ Some c) × (same_set (l ∷ []) c ≡ true) }
{}

/// After any journal of the ruler, the program's opening is an opening.
pub fn the_program_opens()
    ensures { (F : List (List Literal)) (J0 : List Entry) → IsRulersPart F J0 → IsOpening F (program_opening F J0) }
{}

/// If entries of the rings follow those of the ruler, the ruler's part ends where they begin.
pub fn the_ruler_comes_first()
    ensures front { (J K : List Entry) → All (λ e. is_rulers e ≡ true) J → All (λ e. ring_of e < RULER_RING) K → ruler_part (J ++ K) ≡ J }
    ensures rest { (J K : List Entry) → All (λ e. is_rulers e ≡ true) J → All (λ e. ring_of e < RULER_RING) K → rings_part (J ++ K) ≡ K }
{}
