//! What rounds of the core leave: a journal that is sound, and that tells its rounds.
ghost use Rattle.std.specs.Prelude.{◌≡◌, ◌+◌, ◌<◌, ◌≤◌, max, ℕ, List, [], ◌∷◌, ◌++◌, length, count_by, Option, None, Some, true, false, IfSome, All};
ghost use Rattle.std.specs.List.{list_any};
ghost use Rattle.sat_words.specs.Literal.{Literal};
ghost use Rattle.rup_model.specs.declared.journal.Entry.{Entry};
ghost use Rattle.rup_model.specs.Basics.{EachAfter};
ghost use Rattle.rup_model.specs.Journal.{LogSound};
ghost use Rattle.rup_model.specs.NumberedLines.{AreHinted};
ghost use Rattle.rup_model.specs.Opening.{is_rulers, IsNew};
ghost use Rattle.rup_model.specs.Windows.{begins_round, since_round, to_round, last_round, opening_by, round_opening, IsNewInRound, IsSpacedInRound};
ghost use Rattle.share_core.specs.State.{opening_of};
ghost use Rattle.core_rounds.specs.Rounds.{RoundRun, left_by, written_in, start_for, IsRound, IsSpent, AreRounds};
ghost use Rattle.core_rounds.specs.InRounds.{learned_by, round_limit, IsOfRounds, IsHintedByRuler, IsFreshInRound, IsDueInRounds};

use share_core::tickets_are_counted;

/// A round adds to the journal that it begins with, and begins no further one; the entry that begins it tells its opening.
pub fn a_round_tells_its_opening()
    ensures journal { (rings depth limit : ℕ) (F : List (List Literal)) (before : List Entry) (x : RoundRun) → IsRound rings depth limit F before x
        → (left_by x).journal ≡ x.opening.journal ++ written_in x }
    ensures alone { (rings depth limit : ℕ) (F : List (List Literal)) (before : List Entry) (x : RoundRun) → IsRound rings depth limit F before x
        → list_any begins_round (written_in x) ≡ false }
    ensures since { (rings depth limit : ℕ) (F : List (List Literal)) (before : List Entry) (x : RoundRun) → IsRound rings depth limit F before x
        → since_round (left_by x).journal ≡ written_in x }
    ensures to { (rings depth limit : ℕ) (F : List (List Literal)) (before : List Entry) (x : RoundRun) → IsRound rings depth limit F before x
        → to_round (left_by x).journal ≡ x.opening.journal }
    ensures last { (rings depth limit : ℕ) (F : List (List Literal)) (before : List Entry) (x : RoundRun) → IsRound rings depth limit F before x
        → last_round (left_by x).journal ≡ Some (start_for x.opening) }
    ensures opening { (rings depth limit : ℕ) (F : List (List Literal)) (before : List Entry) (x : RoundRun) → IsRound rings depth limit F before x
        → opening_by F x.opening.journal (Some (start_for x.opening)) ≡ opening_of x.opening }
    ensures read { (rings depth limit : ℕ) (F : List (List Literal)) (before : List Entry) (x : RoundRun) → IsRound rings depth limit F before x
        → round_opening F (left_by x).journal ≡ opening_of x.opening }
{}

/// The log of the journal that rounds leave is sound.
pub fn rounds_leave_a_sound_log()
    ensures { (rings depth : ℕ) (every : Option ℕ) (most : ℕ) (F : List (List Literal)) (xs : List RoundRun) (J : List Entry)
        → AreRounds rings depth every most F xs J → LogSound F J }
{}

/// If all rounds have hints, and those of the ruler's additions show that they follow, then the hints of each addition do.
pub fn rounds_leave_a_hinted_log()
    ensures { (rings depth : ℕ) (every : Option ℕ) (most : ℕ) (F : List (List Literal)) (xs : List RoundRun) (J : List Entry)
        → AreRounds rings depth every most F xs J → All (λ x. x.opening.hinted ≡ true) xs → EachAfter (IsHintedByRuler F) [] J → AreHinted F J }
{}

/// Each entry is the ruler's, begins a round or is of one of the rings; as many begin one as there are rounds.
pub fn entries_are_of_rounds()
    ensures each { (rings depth : ℕ) (every : Option ℕ) (most : ℕ) (F : List (List Literal)) (xs : List RoundRun) (J : List Entry)
        → AreRounds rings depth every most F xs J → All (IsOfRounds rings) J }
    ensures count { (rings depth : ℕ) (every : Option ℕ) (most : ℕ) (F : List (List Literal)) (xs : List RoundRun) (J : List Entry)
        → AreRounds rings depth every most F xs J → count_by begins_round J ≡ length xs }
{}

/// What a ring learns is fresh in its round, and a ring that reduces has learned enough in its round; what is learned is new
/// in its round if, in each round, it is new after the round's opening.
pub fn what_is_learned_is_fresh_in_its_round()
    ensures fresh { (rings depth : ℕ) (every : Option ℕ) (most : ℕ) (F : List (List Literal)) (xs : List RoundRun) (J : List Entry)
        → AreRounds rings depth every most F xs J → EachAfter (IsFreshInRound F) [] J }
    ensures spaced { (rings depth : ℕ) (every : Option ℕ) (most : ℕ) (F : List (List Literal)) (xs : List RoundRun) (J : List Entry)
        → AreRounds rings depth every most F xs J → EachAfter IsSpacedInRound [] J }
    ensures new { (rings depth : ℕ) (every : Option ℕ) (most : ℕ) (F : List (List Literal)) (xs : List RoundRun) (J : List Entry)
        → AreRounds rings depth every most F xs J → All (λ x. EachAfter (IsNew (opening_of x.opening)) [] (written_in x)) xs → EachAfter (IsNewInRound F) [] J }
{}

/// A round begins after another only if that one learned all that it might, and less than the most was learned in all.
pub fn a_round_begins_when_due()
    ensures { (rings depth : ℕ) (every : Option ℕ) (most : ℕ) (F : List (List Literal)) (xs : List RoundRun) (J : List Entry)
        → AreRounds rings depth every most F xs J → EachAfter (IsDueInRounds rings every most) [] J }
{}

/// No more is learned in a round than its limit, as much if no ring found a ticket left, and no more in all than the most.
pub fn rounds_learn_no_more_than_they_may()
    ensures round { (rings depth limit : ℕ) (F : List (List Literal)) (before : List Entry) (x : RoundRun) → IsRound rings depth limit F before x
        → learned_by rings (written_in x) ≤ limit }
    ensures spent { (rings depth limit : ℕ) (F : List (List Literal)) (before : List Entry) (x : RoundRun) → IsRound rings depth limit F before x
        → ((r : ℕ) → r < x.opening.rings → x.opening.limit < ((left_by x).part r).found) → IsSpent x }
    ensures sum { (rings depth limit : ℕ) (F : List (List Literal)) (before rest : List Entry) (x : RoundRun) → IsRound rings depth limit F (before ++ rest) x → All (λ e. is_rulers e ≡ true) rest
        → learned_by rings (left_by x).journal ≡ learned_by rings before + learned_by rings (written_in x) }
    ensures all { (rings depth : ℕ) (every : Option ℕ) (most : ℕ) (F : List (List Literal)) (xs : List RoundRun) (J : List Entry)
        → AreRounds rings depth every most F xs J → learned_by rings J ≤ most }
{
    tickets_are_counted();
}

/// While something is left to learn a round may learn something; so each spent round learns more, and there are no more
/// rounds than the most. If rounds have no bound of their own, there is one.
pub fn rounds_come_to_an_end()
    ensures some { (every : Option ℕ) (most done : ℕ) → IfSome every (λ k. 1 ≤ k) → done < most → 1 ≤ round_limit every most done }
    ensures more { (rings depth : ℕ) (every : Option ℕ) (most : ℕ) (F : List (List Literal)) (before rest : List Entry) (x : RoundRun) → IfSome every (λ k. 1 ≤ k) → learned_by rings before < most
        → IsRound rings depth (round_limit every most (learned_by rings before)) F (before ++ rest) x → All (λ e. is_rulers e ≡ true) rest → IsSpent x
        → learned_by rings before < learned_by rings (left_by x).journal }
    ensures few { (rings depth : ℕ) (every : Option ℕ) (most : ℕ) (F : List (List Literal)) (xs : List RoundRun) (J : List Entry) → IfSome every (λ k. 1 ≤ k)
        → AreRounds rings depth every most F xs J → length xs ≤ max 1 most }
    ensures one { (rings depth most : ℕ) (F : List (List Literal)) (xs : List RoundRun) (J : List Entry)
        → AreRounds rings depth None most F xs J → length xs ≤ 1 }
{}
