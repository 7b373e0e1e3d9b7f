//! What growing and going back keep of a trail, over whatever is held.
ghost use Rattle.std.specs.Prelude.{◌≡◌, ◌≤◌, ◌<◌, ℕ, Bool, List, Option, None, Some, true, not, length};
ghost use Rattle.sat_words.specs.Literal.{Literal};
ghost use Rattle.sat_words.specs.Clause.{has};
ghost use Rattle.sat_words.specs.declared.shared.Cref.{Cref};
ghost use Rattle.ring_trail.specs.declared.step.TrailStep.{TrailStep};
ghost use Rattle.ring_trail.specs.TrailData.{TrailData, IsTrail, HasGrown, IsPlaceOf, HasNoPlace, step_at, lit_at, level_at, value_of, level_of, reason_of, step_of, decided, assigned, cut_back};
ghost use Rattle.ring_trail.specs.Reasoned.{Held, IsReasoned, KeepsReasons, ForcesAt};
ghost use Rattle.ring_trail.specs.Closed.{IsClosed};

/// A variable has a value exactly if its literal stands at some place, and the step there is the variable's.
pub fn places_are_values()
    ensures none { (steps : List TrailStep) (v : ℕ) → value_of steps v ≡ None → HasNoPlace steps v }
    ensures free { (steps : List TrailStep) (v : ℕ) → HasNoPlace steps v → step_of steps v ≡ None }
    ensures some { (steps : List TrailStep) (v : ℕ) (b : Bool) → value_of steps v ≡ Some b → (p : ℕ) × IsPlaceOf steps v p × (not (lit_at steps p).neg ≡ b) }
    ensures step { (t : TrailData) (v p : ℕ) → IsTrail t → IsPlaceOf t.steps v p → step_of t.steps v ≡ Some (step_at t.steps p) }
{}

/// A decision keeps the reasons.
pub fn a_decision_keeps_reasons()
    ensures { (held : Held) (seen : List Literal) (t : TrailData) (l : Literal) → IsTrail t → IsReasoned held seen t.steps → IsReasoned held seen (decided t l).steps }
{}

/// A literal that a held clause forces, its other literals being false, keeps the reasons.
pub fn a_forced_literal_keeps_reasons()
    ensures { (held : Held) (seen : List Literal) (t : TrailData) (l : Literal) (c : Cref) (d : List Literal) → IsReasoned held seen t.steps
        → held c.address ≡ Some d → ForcesAt t.steps (length t.steps) l d → IsReasoned held seen (assigned t l (Some c)).steps }
{}

/// A literal at level 0 whose unit was seen keeps the reasons, whatever its own is.
pub fn a_seen_unit_keeps_reasons()
    ensures { (held : Held) (seen : List Literal) (t : TrailData) (l : Literal) (r : Option Cref) → IsReasoned held seen t.steps
        → t.level ≡ 0 → has seen l ≡ true → IsReasoned held seen (assigned t l r).steps }
{}

/// Going back keeps the reasons.
pub fn going_back_keeps_reasons()
    ensures { (held : Held) (seen : List Literal) (t : TrailData) (k : ℕ) → IsTrail t → IsReasoned held seen t.steps → IsReasoned held seen (cut_back t k).steps }
{}

/// Going back keeps exactly the steps at levels up to the one gone back to, each at its place.
pub fn going_back_keeps_places()
    ensures kept { (t : TrailData) (k p : ℕ) → IsTrail t → p < length t.steps → level_at t.steps p ≤ k
        → (p < length (cut_back t k).steps) × (step_at (cut_back t k).steps p ≡ step_at t.steps p) }
    ensures only { (t : TrailData) (k p : ℕ) → IsTrail t → p < length (cut_back t k).steps
        → (p < length t.steps) × (level_at t.steps p ≤ k) × (step_at (cut_back t k).steps p ≡ step_at t.steps p) }
{}

/// What is held and seen may change: the reasons stay if each is held as before, or is that of a literal at level 0
/// whose unit is seen.
pub fn more_held_keeps_reasons()
    ensures { (held more : Held) (seen told : List Literal) (steps : List TrailStep) → IsReasoned held seen steps
        → KeepsReasons held more told steps → ((l : Literal) → has seen l ≡ true → has told l ≡ true) → IsReasoned more told steps }
{}

/// A decision keeps clauses closed at each level up to the old present one.
pub fn a_decision_keeps_closed_below()
    ensures { (cs : List (List Literal)) (t : TrailData) (l : Literal) (k : ℕ) → k ≤ t.level → IsClosed cs t.steps k → IsClosed cs (decided t l).steps k }
{}

/// A literal at the present level keeps clauses closed at each level below.
pub fn an_assignment_keeps_closed_below()
    ensures { (cs : List (List Literal)) (t : TrailData) (l : Literal) (r : Option Cref) (k : ℕ) → k < t.level → IsClosed cs t.steps k → IsClosed cs (assigned t l r).steps k }
{}

/// Going back to a level keeps clauses closed at each level up to it.
pub fn going_back_keeps_closed()
    ensures { (cs : List (List Literal)) (t : TrailData) (j k : ℕ) → IsTrail t → j ≤ k → IsClosed cs t.steps j → IsClosed cs (cut_back t k).steps j }
{}

/// A trail has grown by nothing, and goes on growing by each assignment and each pass. Clauses that are closed at a level
/// below its present one stay so.
pub fn growth_is_by_assignments()
    ensures none { (t : TrailData) → HasGrown t t }
    ensures assigned { (t u : TrailData) (l : Literal) (r : Option Cref) → HasGrown t u → HasGrown t (assigned u l r) }
    ensures passed { (t u : TrailData) (n : ℕ) → HasGrown t u → HasGrown t (record u { done = n }) }
    ensures again { (t u w : TrailData) → HasGrown t u → HasGrown u w → HasGrown t w }
    ensures closed { (cs : List (List Literal)) (t u : TrailData) (k : ℕ) → HasGrown t u → k < t.level → IsClosed cs t.steps k → IsClosed cs u.steps k }
{}
