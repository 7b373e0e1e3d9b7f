// What follows from the state of a port; the calls compute nothing.
ghost use Rattle.std.specs.Prelude.{◌≡◌, ◌≢◌, ℕ, ◌∷◌, [], List, All, Contains, IsSome, true, Option, Result};
ghost use Rattle.sat_words.specs.Literal.{Literal};
ghost use Rattle.sat_words.specs.Clause.{has};
ghost use Rattle.sat_words.specs.declared.shared.Cref.{Cref};
ghost use Rattle.rup_model.specs.Basics.{EachAfter};
ghost use Rattle.rup_model.specs.declared.journal.Kind.{Kind};
ghost use Rattle.rup_model.specs.Opening.{Opening, IsLong, IsNew};
ghost use Rattle.rup_model.specs.Log.{Accepted, Refutes};
ghost use Rattle.rup_model.specs.NumberedLines.{IsHinted};
ghost use Rattle.rup_model.specs.Journal.{lines, learned, recent, IsSpaced};
ghost use Rattle.ring_port.specs.Log.{Origin, StandsOver, journal_of};
ghost use Rattle.ring_port.specs.Port.{AddedClause};
ghost use Rattle.ring_port.specs.Reducing.{MayReduce, NotedReduce};
ghost use Rattle.ring_port.specs.Deleting.{DroppedOnce};
ghost use Rattle.ring_port.specs.PortState.{PortState, IsPort, IsOn, held_at, lits_at, known};

/// A clause that is held may be used by propagation.
pub fn held_clauses_are_known()
    ensures { (s : PortState) (a : ℕ) → IsSome (held_at s a) → Contains (known s) (lits_at s a) }
{}

/// A unit that was seen may be used by propagation.
pub fn seen_units_are_known()
    ensures { (s : PortState) (l : Literal) → has s.seen l ≡ true → Contains (known s) (l ∷ []) }
{}

/// A clause that is held has two literals or more, without repeats or opposites, on the port's variables.
pub fn held_clauses_are_long()
    ensures long { (s : PortState) (a : ℕ) → IsPort s → IsSome (held_at s a) → IsLong (lits_at s a) }
    ensures on { (s : PortState) (a : ℕ) → IsPort s → IsSome (held_at s a) → All (IsOn s.vars) (lits_at s a) }
{}

/// Each line of the journal of a port that writes alone is valid where it stands; once the log is ended it refutes
/// the formula. In a log with hints those of each addition of the ring show that it follows from what is alive before it.
pub fn a_log_is_accepted()
    ensures accepted { (o : Origin) (s : PortState) → StandsOver o s → Accepted o.formula (lines o.formula (journal_of o s)) }
    ensures hinted { (o : Origin) (s : PortState) → StandsOver o s → s.hinted ≡ true → EachAfter (IsHinted o.formula) o.journal s.mine }
    ensures refutes { (o : Origin) (s : PortState) → StandsOver o s → s.ended ≡ true → Refutes o.formula (lines o.formula (journal_of o s)) }
{}

/// A clause that is dropped leaves every other one held as it was.
pub fn dropping_keeps_the_others()
    ensures { (old new : PortState) (a b : ℕ) → DroppedOnce old new a → b ≢ a → held_at new b ≡ held_at old b }
{}

/// After a reduction is noted nothing counts as learned lately; as many clauses were learned as before, each as new as it was,
/// and the Reduce entries stay spaced. A clause that is derived counts as none that was learned.
pub fn a_reduction_forgets()
    ensures recent { (old new : PortState) → NotedReduce old new → recent new.ring new.mine ≡ [] }
    ensures learned { (old new : PortState) → NotedReduce old new → learned new.ring new.mine ≡ learned old.ring old.mine }
    ensures each_new { (o : Opening) (old new : PortState) → NotedReduce old new → EachAfter (IsNew o) [] old.mine → EachAfter (IsNew o) [] new.mine }
    ensures spaced { (old new : PortState) → NotedReduce old new → MayReduce old → EachAfter IsSpaced [] old.mine → EachAfter IsSpaced [] new.mine }
    ensures derived { (old new : PortState) (lits : List Literal) (glue : ℕ) (c : Cref) → AddedClause old new lits glue Kind.Derive c → recent new.ring new.mine ≡ recent old.ring old.mine }
{}
