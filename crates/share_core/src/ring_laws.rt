//! What the events of one ring leave to the others, and what only grows.
ghost use Rattle.std.specs.Prelude.{◌≡◌, ◌≢◌, ℕ, ◌+◌, ◌<◌, ◌≤◌, List, ◌++◌, map, length, fold, count_by, Some, None};
ghost use Rattle.rup_model.specs.declared.journal.Entry.{Entry};
ghost use Rattle.rup_model.specs.Basics.{below};
ghost use Rattle.rup_model.specs.Journal.{learned};
ghost use Rattle.sat_words.specs.Literal.{Literal};
ghost use Rattle.share_core.specs.declared.event.Event.{Event};
ghost use Rattle.share_core.specs.declared.event.Event.TheVariants.{Stop as StopEvent};
ghost use Rattle.share_core.specs.declared.event.Stop.{Stop};
ghost use Rattle.share_core.specs.State.{Placed, State};
ghost use Rattle.share_core.specs.Enabled.{IsEnabled, AllEnabled};
ghost use Rattle.share_core.specs.Events.{after};
ghost use Rattle.share_core.specs.Left.{ring_of, AreOthers, shares};
ghost use Rattle.share_core.specs.Sound.{Sound};

/// A ring's event leaves every other ring's part and grant as they were.
pub fn others_stay()
    ensures part { (c : State) (r : ℕ) (es : List Event) → AreOthers r es → (fold after c es).part r ≡ c.part r }
    ensures grant { (c : State) (r : ℕ) (es : List Event) → AreOthers r es → (fold after c es).granted r ≡ c.granted r }
{}

/// The first stop stays; the event that sets it is a stop of its ring and of its kind.
pub fn the_first_stop_stays()
    ensures stays { (c : State) (s : Stop) (es : List Event) → c.stop ≡ Some s → (fold after c es).stop ≡ Some s }
    ensures set { (c : State) (s : Stop) (e : Event) → c.stop ≡ None → (after c e).stop ≡ Some s → e ≡ StopEvent s.ring s.kind }
{}

/// Whoever has the turn is a ring.
pub fn the_turn_is_a_rings()
    ensures { (c : State) (r : ℕ) → Sound c → c.turn ≡ Some r → r < c.opening.rings }
{}

/// While one ring has the turn, no event of another adds to the journal or to the listed units, or takes the turn.
pub fn the_turn_keeps_the_log()
    ensures journal { (c : State) (r : ℕ) (es : List Event) → c.turn ≡ Some r → AreOthers r es → AllEnabled c es → (fold after c es).journal ≡ c.journal }
    ensures units { (c : State) (r : ℕ) (es : List Event) → c.turn ≡ Some r → AreOthers r es → AllEnabled c es → (fold after c es).units ≡ c.units }
    ensures numbers { (c : State) (r : ℕ) (es : List Event) → c.turn ≡ Some r → AreOthers r es → AllEnabled c es → (fold after c es).numbers ≡ c.numbers }
    ensures turn { (c : State) (r : ℕ) (es : List Event) → c.turn ≡ Some r → AreOthers r es → AllEnabled c es → (fold after c es).turn ≡ Some r }
{}

/// While one ring has the turn, each of its events that is enabled stays so, whatever the others do.
pub fn guards_stay_enabled()
    ensures { (c : State) (e : Event) (es : List Event) → c.turn ≡ Some (ring_of e) → AreOthers (ring_of e) es → AllEnabled c es
        → IsEnabled c e → IsEnabled (fold after c es) e }
{}

/// The listed units, and those that a ring has seen, only grow, and so do their numbers; those seen are always the first listed.
pub fn units_grow()
    ensures listed { (c : State) (es : List Event) → (more : List Literal) × ((fold after c es).units ≡ c.units ++ more) }
    ensures seen { (c : State) (r : ℕ) (es : List Event) → (more : List Literal) × (((fold after c es).part r).seen ≡ (c.part r).seen ++ more) }
    ensures front { (c : State) (r : ℕ) → Sound c → (rest : List Literal) × (c.units ≡ (c.part r).seen ++ rest) }
    ensures listed_numbers { (c : State) (es : List Event) → (more : List ℕ) × ((fold after c es).numbers ≡ c.numbers ++ more) }
    ensures seen_numbers { (c : State) (r : ℕ) (es : List Event) → (more : List ℕ) × (((fold after c es).part r).numbers ≡ (c.part r).numbers ++ more) }
    ensures front_numbers { (c : State) (r : ℕ) → Sound c → (rest : List ℕ) × (c.numbers ≡ (c.part r).numbers ++ rest) × (length (c.part r).numbers ≡ length (c.part r).seen) }
{}

/// The rings together learn no more clauses than the limit after the opening's journal, and exactly as many
/// once each of them found no ticket left. No more draws are made than the limit and one for each ring.
pub fn tickets_are_counted()
    ensures within { (c : State) → Sound c
        → (added : List Entry) × (c.journal ≡ c.opening.journal ++ added) × (below c.opening.rings (λ r. length (learned r added)) ≤ c.opening.limit) }
    ensures spent { (c : State) → Sound c → ((r : ℕ) → r < c.opening.rings → c.opening.limit < (c.part r).found)
        → (added : List Entry) × (c.journal ≡ c.opening.journal ++ added) × (below c.opening.rings (λ r. length (learned r added)) ≡ c.opening.limit) }
    ensures parts { (c : State) → Sound c → ((r : ℕ) → r < c.opening.rings → c.opening.limit < (c.part r).found)
        → below c.opening.rings (λ r. length (learned r (map (λ (w : Placed). w.entry) (c.part r).wrote))) ≡ c.opening.limit }
    ensures draws { (c : State) → Sound c → c.drawn ≤ c.opening.limit + c.opening.rings }
{}

/// What a ring has shared is the number of its events that share.
pub fn shares_are_counted()
    ensures { (c : State) (r : ℕ) (es : List Event) → ((fold after c es).part r).shared ≡ (c.part r).shared + count_by (shares r) es }
{}
