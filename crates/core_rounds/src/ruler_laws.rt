//! What the ruler's entries leave of a journal in rounds as it was.
ghost use Rattle.std.specs.Prelude.{◌≡◌, ℕ, List, [], ◌++◌, count_by, Option, true, All};
ghost use Rattle.sat_words.specs.Literal.{Literal};
ghost use Rattle.rup_model.specs.declared.journal.Entry.{Entry};
ghost use Rattle.rup_model.specs.Basics.{EachAfter};
ghost use Rattle.rup_model.specs.Opening.{is_rulers};
ghost use Rattle.rup_model.specs.Windows.{begins_round, IsNewInRound, IsSpacedInRound};
ghost use Rattle.core_rounds.specs.InRounds.{learned_by, IsOfRounds, IsFreshInRound, IsDueInRounds};

/// What the ruler adds to a journal in rounds changes none of this.
pub fn the_ruler_keeps_rounds()
    ensures each { (rings : ℕ) (J rest : List Entry) → All (λ e. is_rulers e ≡ true) rest → All (IsOfRounds rings) J → All (IsOfRounds rings) (J ++ rest) }
    ensures count { (J rest : List Entry) → All (λ e. is_rulers e ≡ true) rest → count_by begins_round (J ++ rest) ≡ count_by begins_round J }
    ensures fresh { (F : List (List Literal)) (J rest : List Entry) → All (λ e. is_rulers e ≡ true) rest → EachAfter (IsFreshInRound F) [] J → EachAfter (IsFreshInRound F) [] (J ++ rest) }
    ensures new { (F : List (List Literal)) (J rest : List Entry) → All (λ e. is_rulers e ≡ true) rest → EachAfter (IsNewInRound F) [] J → EachAfter (IsNewInRound F) [] (J ++ rest) }
    ensures spaced { (J rest : List Entry) → All (λ e. is_rulers e ≡ true) rest → EachAfter IsSpacedInRound [] J → EachAfter IsSpacedInRound [] (J ++ rest) }
    ensures due { (rings : ℕ) (every : Option ℕ) (most : ℕ) (J rest : List Entry) → All (λ e. is_rulers e ≡ true) rest
        → EachAfter (IsDueInRounds rings every most) [] J → EachAfter (IsDueInRounds rings every most) [] (J ++ rest) }
    ensures learned { (rings : ℕ) (J rest : List Entry) → All (λ e. is_rulers e ≡ true) rest → learned_by rings (J ++ rest) ≡ learned_by rings J }
{}
