ghost use Rattle.std.specs.Prelude.{◌≡◌, ◌<◌, ℕ, true, None, List, Contains, length};
ghost use Rattle.sat_words.specs.Literal.{Literal};
ghost use Rattle.sat_words.specs.Clause.{has};
ghost use Rattle.ring_port.specs.PortState.{PortState};
ghost use Rattle.ring_trail.specs.TrailData.{TrailData, IsTrail, IsFalseClause, value_of, cut_back};
ghost use Rattle.ring_trail.specs.Reasoned.{ForcesAt};
ghost use Rattle.ring_trail.specs.Closed.{IsClosed};
ghost use Rattle.analyze.specs.Levels.{clause_level};
ghost use Rattle.analyze.specs.Lemma.{IsLemma};

/// A lemma contains no clause for which the trail was closed at each level below the conflict's.
pub fn contains_no_closed()
    ensures { (s : PortState) (t : TrailData) (conflict lits : List Literal) (back glue : ℕ) (cs : List (List Literal)) (c : List Literal)
        → IsTrail t → 0 < clause_level t.steps conflict → IsLemma s t conflict lits back glue
        → ((k : ℕ) → k < clause_level t.steps conflict → IsClosed cs t.steps k) → Contains cs c
        → ((l : Literal) → has c l ≡ true → has lits l ≡ true) → ⊥ }
{}

/// If the trail was closed for some clauses at each level below the present one, each of them that is false became so at the
/// present level.
pub fn conflicts_are_at_the_present_level()
    ensures { (t : TrailData) (cs : List (List Literal)) (c : List Literal) → IsTrail t
        → ((k : ℕ) → k < t.level → IsClosed cs t.steps k) → Contains cs c → IsFalseClause t.steps c → clause_level t.steps c ≡ t.level }
{}

/// The backjump to a lemma's level takes the value of its first literal away and leaves its others false. Then the lemma
/// forces the first one.
pub fn a_lemma_forces_its_first_literal()
    ensures lower { (s : PortState) (t : TrailData) (conflict lits : List Literal) (back glue : ℕ) → IsTrail t → 0 < clause_level t.steps conflict
        → IsLemma s t conflict lits back glue → back < clause_level t.steps conflict }
    ensures open_first { (s : PortState) (t : TrailData) (conflict lits : List Literal) (back glue : ℕ) → IsTrail t → 0 < clause_level t.steps conflict
        → (i : IsLemma s t conflict lits back glue) → value_of (cut_back t back).steps i.first.var ≡ None }
    ensures forces { (s : PortState) (t : TrailData) (conflict lits : List Literal) (back glue : ℕ) → IsTrail t → 0 < clause_level t.steps conflict
        → (i : IsLemma s t conflict lits back glue) → ForcesAt (cut_back t back).steps (length (cut_back t back).steps) i.first lits }
{}
