//! What an accepted log promises.
ghost use Rattle.std.specs.Prelude.{◌≡◌, ◌≤◌, Bool, List, true, false, All};
ghost use Rattle.sat_words.specs.Literal.{Literal};
ghost use Rattle.sat_words.specs.Truth.{formula_true};
ghost use Rattle.sat_words.specs.declared.line.Line.{Line};
ghost use Rattle.rup_model.specs.Log.{alive_after, alive, is_valid, Accepted, Refutes, lits_of, OnVariables};

/// A valid line, be it a RUP or RAT addition or a deletion, keeps clauses satisfiable.
pub fn a_line_keeps_satisfiable()
    ensures { (G : List (List Literal)) (x : Line) → is_valid G x ≡ true → All (λ l. 1 ≤ l.var) (lits_of x)
        → (a : List Bool) → formula_true a G ≡ true → (b : List Bool) × (formula_true b (alive_after G x) ≡ true) }
{}

/// If a formula is true under some assignment, so is what an accepted log leaves alive.
pub fn a_log_keeps_satisfiable()
    ensures { (F : List (List Literal)) (L : List Line) → Accepted F L → OnVariables L
        → (a : List Bool) → formula_true a F ≡ true → (b : List Bool) × (formula_true b (alive F L) ≡ true) }
{}

/// A formula that a log refutes is true under no assignment.
pub fn refuted_is_never_true()
    ensures { (F : List (List Literal)) (L : List Line) → Refutes F L → OnVariables L → (a : List Bool) → formula_true a F ≡ false }
{}
