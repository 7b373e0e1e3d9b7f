//! What a trail has to do with plain rounds of unit propagation, over any clauses and from any literals.
ghost use Rattle.std.specs.Prelude.{◌≡◌, ◌⊎◌, ◌↔◌, ◌<◌, ◌++◌, ◌∷◌, [], ℕ, List, Option, Some, true, false, map, length, Contains};
ghost use Rattle.sat_words.specs.Literal.{Literal, opposite};
ghost use Rattle.sat_words.specs.Clause.{has};
ghost use Rattle.sat_words.specs.declared.shared.Cref.{Cref};
ghost use Rattle.rup_model.specs.Rounds.{Rounds};
ghost use Rattle.rup_model.specs.Rup.{conflicts};
ghost use Rattle.ring_port.specs.PortState.{PortState, lits_at, clause_at, known};
ghost use Rattle.ring_trail.specs.declared.step.TrailStep.{TrailStep};
ghost use Rattle.ring_trail.specs.TrailData.{TrailData, IsTrail, IsTrueOn, IsFalseClause, HasGrown, lit_at, decided, cut_back};
ghost use Rattle.ring_trail.specs.Reasoned.{Held, IsSeen, IsReasoned};
ghost use Rattle.ring_trail.specs.Closed.{IsClosed};
ghost use Rattle.watch_prop.specs.WatchData.{WatchData, attached, clauses_of};
ghost use Rattle.watch_prop.specs.Propagation.{attached_at, HasReasons, IsConflict, IsQuiet};
ghost use Rattle.watch_prop.specs.Rounds.{decisions_of, fixed_of, with_units, AllTrueOn, HeldAmong, IsDerived, IsUnfinished};

/// Each literal of a derived trail is in the rounds, unless they falsify a clause. (One round may add a literal and its
/// negation together.) They falsify one if a clause is false on the trail, and where a literal of the trail that wasn't
/// given is negated.
pub fn derived_literals_are_in_the_rounds()
    ensures in_rounds { (G : List (List Literal)) (A : List Literal) (steps : List TrailStep) (l : Literal) → IsDerived G A steps → IsTrueOn steps l
        → (Rounds G A l ≡ true) ⊎ (conflicts G A ≡ true) }
    ensures conflict { (G : List (List Literal)) (A : List Literal) (steps : List TrailStep) (c : List Literal) → IsDerived G A steps → Contains G c
        → IsFalseClause steps c → conflicts G A ≡ true }
    ensures refuted { (G : List (List Literal)) (A : List Literal) (steps : List TrailStep) (l : Literal) → IsDerived G A steps → IsTrueOn steps l
        → (has A l ≡ true) ⊎ (conflicts G (opposite l ∷ A) ≡ true) }
{}

/// Rounds from literals that are true on the trail add only such if the clauses are closed at its present level, and
/// falsify none. So a trail that is derived has exactly the literals of the rounds then.
pub fn closed_trails_hold_the_rounds()
    ensures on_trail { (G : List (List Literal)) (A : List Literal) (t : TrailData) (l : Literal) → IsTrail t → IsClosed G t.steps t.level → AllTrueOn t.steps A
        → Rounds G A l ≡ true → IsTrueOn t.steps l }
    ensures quiet { (G : List (List Literal)) (A : List Literal) (t : TrailData) → IsTrail t → IsClosed G t.steps t.level → AllTrueOn t.steps A
        → conflicts G A ≡ false }
    ensures same { (G : List (List Literal)) (A : List Literal) (t : TrailData) (l : Literal) → IsTrail t → IsClosed G t.steps t.level → AllTrueOn t.steps A
        → IsDerived G A t.steps → (Rounds G A l ≡ true) ↔ IsTrueOn t.steps l }
{}

/// If rounds from literals that are true on the trail falsify a clause, one of the clauses is false or unit on the
/// trail.
pub fn conflicts_of_rounds_are_unfinished()
    ensures { (G : List (List Literal)) (A : List Literal) (t : TrailData) → IsTrail t → AllTrueOn t.steps A → conflicts G A ≡ true → IsUnfinished G t.steps }
{}

/// The clauses are closed at the present level exactly if none is false or unit. They stay so with units that are true.
pub fn trails_are_closed_or_unfinished()
    ensures either { (G : List (List Literal)) (t : TrailData) → IsTrail t → IsClosed G t.steps t.level ⊎ IsUnfinished G t.steps }
    ensures apart { (G : List (List Literal)) (t : TrailData) → IsTrail t → IsClosed G t.steps t.level → IsUnfinished G t.steps → ⊥ }
    ensures more { (cs : List (List Literal)) (units : List Literal) (t : TrailData) → IsTrail t → IsClosed cs t.steps t.level → AllTrueOn t.steps units
        → IsClosed (with_units cs units) t.steps t.level }
{}

/// A trail whose literals have their reasons is derived: from its decisions, if the units seen or the literals at level
/// 0 are clauses. What is looked up among attached clauses is one of them, and more may be given.
pub fn reasoned_trails_are_derived()
    ensures given { (held : Held) (seen : List Literal) (G : List (List Literal)) (A : List Literal) (steps : List TrailStep) → IsReasoned held seen steps → HeldAmong held G
        → ((p : ℕ) → p < length steps → IsSeen seen steps p → (has A (lit_at steps p) ≡ true) ⊎ Contains G (lit_at steps p ∷ []))
        → ((l : Literal) → has (decisions_of steps) l ≡ true → has A l ≡ true) → IsDerived G A steps }
    ensures seen { (held : Held) (seen : List Literal) (cs : List (List Literal)) (steps : List TrailStep) → IsReasoned held seen steps → HeldAmong held cs
        → IsDerived (with_units cs seen) (decisions_of steps) steps }
    ensures fixed { (held : Held) (seen : List Literal) (cs : List (List Literal)) (steps : List TrailStep) → IsReasoned held seen steps → HeldAmong held cs
        → IsDerived (with_units cs (fixed_of steps)) (decisions_of steps) steps }
    ensures known { (s : PortState) (steps : List TrailStep) → IsReasoned (clause_at s) s.seen steps → IsDerived (known s) (decisions_of steps) steps }
    ensures attached { (cs : List Cref) (s : PortState) → HeldAmong (attached_at cs s) (map (λ (c : Cref). lits_at s c.address) cs) }
    ensures more { (G H : List (List Literal)) (A B : List Literal) (steps : List TrailStep) → ((c : List Literal) → Contains G c → Contains H c)
        → ((l : Literal) → has A l ≡ true → has B l ≡ true) → IsDerived G A steps → IsDerived H B steps }
{}

/// A trail whose literals have their reasons, against the rounds from its decisions over clauses and the units seen: its
/// literals are in them, or they falsify a clause, as they do if one is false on the trail. Where the clauses are closed
/// at the present level and the units are true, its literals are exactly theirs and they falsify none. Rounds that falsify
/// one show a clause that is false or unit.
pub fn reasoned_trails_agree_with_rounds()
    ensures in_rounds { (held : Held) (seen : List Literal) (cs : List (List Literal)) (steps : List TrailStep) (l : Literal) → IsReasoned held seen steps → HeldAmong held cs
        → IsTrueOn steps l → (Rounds (with_units cs seen) (decisions_of steps) l ≡ true) ⊎ (conflicts (with_units cs seen) (decisions_of steps) ≡ true) }
    ensures conflict { (held : Held) (seen : List Literal) (cs : List (List Literal)) (steps : List TrailStep) (c : List Literal) → IsReasoned held seen steps → HeldAmong held cs
        → Contains (with_units cs seen) c → IsFalseClause steps c → conflicts (with_units cs seen) (decisions_of steps) ≡ true }
    ensures same { (held : Held) (seen : List Literal) (cs : List (List Literal)) (t : TrailData) (l : Literal) → IsTrail t → IsReasoned held seen t.steps → HeldAmong held cs
        → IsClosed cs t.steps t.level → AllTrueOn t.steps seen → (Rounds (with_units cs seen) (decisions_of t.steps) l ≡ true) ↔ IsTrueOn t.steps l }
    ensures quiet { (seen : List Literal) (cs : List (List Literal)) (t : TrailData) → IsTrail t → IsClosed cs t.steps t.level → AllTrueOn t.steps seen
        → conflicts (with_units cs seen) (decisions_of t.steps) ≡ false }
    ensures unfinished { (seen : List Literal) (cs : List (List Literal)) (t : TrailData) → IsTrail t → AllTrueOn t.steps seen
        → conflicts (with_units cs seen) (decisions_of t.steps) ≡ true → IsUnfinished cs t.steps }
{}

/// Deciding adds one decision, and propagation none.
pub fn decisions_are_those_made()
    ensures none { (t : TrailData) → IsTrail t → t.level ≡ 0 → decisions_of t.steps ≡ [] }
    ensures all_true { (steps : List TrailStep) → AllTrueOn steps (decisions_of steps) }
    ensures decided { (t : TrailData) (l : Literal) → decisions_of (decided t l).steps ≡ decisions_of t.steps ++ l ∷ [] }
    ensures grown { (held : Held) (seen : List Literal) (t u : TrailData) → IsTrail t → HasGrown t u → IsReasoned held seen u.steps → decisions_of u.steps ≡ decisions_of t.steps }
{}

/// At level 0 every literal is one of that level. Above it nothing adds any, and going back takes none away.
pub fn fixed_literals_stay()
    ensures whole { (t : TrailData) → IsTrail t → t.level ≡ 0 → fixed_of t.steps ≡ map (λ (s : TrailStep). s.lit) t.steps }
    ensures all_true { (steps : List TrailStep) → AllTrueOn steps (fixed_of steps) }
    ensures decided { (t : TrailData) (l : Literal) → fixed_of (decided t l).steps ≡ fixed_of t.steps }
    ensures grown { (t u : TrailData) → 0 < t.level → HasGrown t u → fixed_of u.steps ≡ fixed_of t.steps }
    ensures back { (t : TrailData) (k : ℕ) → fixed_of (cut_back t k).steps ≡ fixed_of t.steps }
{}

/// If propagation over watches is quiet, the trail has exactly the literals of the rounds from its decisions over the
/// attached clauses and the units seen, once all of these are true; and the rounds falsify no clause. Where it met a
/// conflict they falsify one.
pub fn propagation_from_units_agrees_with_rounds()
    ensures same { (w : WatchData) (s : PortState) (t : TrailData) (l : Literal) → IsTrail t → HasReasons (attached w) s t.steps → AllTrueOn t.steps s.seen → IsQuiet w (lits_at s) t
        → (Rounds (with_units (clauses_of w (lits_at s)) s.seen) (decisions_of t.steps) l ≡ true) ↔ IsTrueOn t.steps l }
    ensures quiet { (w : WatchData) (s : PortState) (t : TrailData) → IsTrail t → AllTrueOn t.steps s.seen → IsQuiet w (lits_at s) t
        → conflicts (with_units (clauses_of w (lits_at s)) s.seen) (decisions_of t.steps) ≡ false }
    ensures conflict { (w : WatchData) (s : PortState) (t : TrailData) (c : Cref) → HasReasons (attached w) s t.steps → IsConflict w (lits_at s) t c
        → conflicts (with_units (clauses_of w (lits_at s)) s.seen) (decisions_of t.steps) ≡ true }
{}

/// So too with the literals at level 0 in the place of the units seen.
pub fn propagation_from_level_0_agrees_with_rounds()
    ensures same { (w : WatchData) (s : PortState) (t : TrailData) (l : Literal) → IsTrail t → HasReasons (attached w) s t.steps → IsQuiet w (lits_at s) t
        → (Rounds (with_units (clauses_of w (lits_at s)) (fixed_of t.steps)) (decisions_of t.steps) l ≡ true) ↔ IsTrueOn t.steps l }
    ensures quiet { (w : WatchData) (s : PortState) (t : TrailData) → IsTrail t → IsQuiet w (lits_at s) t
        → conflicts (with_units (clauses_of w (lits_at s)) (fixed_of t.steps)) (decisions_of t.steps) ≡ false }
    ensures conflict { (w : WatchData) (s : PortState) (t : TrailData) (c : Cref) → HasReasons (attached w) s t.steps → IsConflict w (lits_at s) t c
        → conflicts (with_units (clauses_of w (lits_at s)) (fixed_of t.steps)) (decisions_of t.steps) ≡ true }
{}
