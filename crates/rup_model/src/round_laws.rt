//! What is said of the clauses that a round learns, and of its reductions, is said of the round's entries alone.
ghost use Rattle.std.specs.Prelude.{◌≡◌, false, List, [], ◌∷◌, ◌++◌, Some};
ghost use Rattle.std.specs.List.{list_any};
ghost use Rattle.sat_words.specs.Literal.{Literal};
ghost use Rattle.rup_model.specs.Basics.{EachAfter};
ghost use Rattle.rup_model.specs.declared.journal.Round.{Round as RoundStart};
ghost use Rattle.rup_model.specs.declared.journal.Entry.{Entry};
ghost use Rattle.rup_model.specs.declared.journal.Entry.TheVariants.{Round};
ghost use Rattle.rup_model.specs.Journal.{IsSpaced};
ghost use Rattle.rup_model.specs.Opening.{IsNew};
ghost use Rattle.rup_model.specs.Windows.{begins_round, opening_by, IsNewInRound, IsSpacedInRound};

/// After an entry that begins a round, while no other does, a clause that is learned is new in its round exactly if it is
/// new, by the round's entries alone, after the opening that the entry makes; and reductions are spaced so.
pub fn a_round_is_read_alone()
    ensures new { (F : List (List Literal)) (J : List Entry) (x : RoundStart) (K : List Entry) → list_any begins_round K ≡ false
        → EachAfter (IsNew (opening_by F (J ++ Round x ∷ []) (Some x))) [] K → EachAfter (IsNewInRound F) (J ++ Round x ∷ []) K }
    ensures new_back { (F : List (List Literal)) (J : List Entry) (x : RoundStart) (K : List Entry) → list_any begins_round K ≡ false
        → EachAfter (IsNewInRound F) (J ++ Round x ∷ []) K → EachAfter (IsNew (opening_by F (J ++ Round x ∷ []) (Some x))) [] K }
    ensures spaced { (J : List Entry) (x : RoundStart) (K : List Entry) → list_any begins_round K ≡ false
        → EachAfter IsSpaced [] K → EachAfter IsSpacedInRound (J ++ Round x ∷ []) K }
    ensures spaced_back { (J : List Entry) (x : RoundStart) (K : List Entry) → list_any begins_round K ≡ false
        → EachAfter IsSpacedInRound (J ++ Round x ∷ []) K → EachAfter IsSpaced [] K }
{}

/// If the clauses of a journal are new in their rounds, and those of one round more are new in it, then so are those of both
/// together; and reductions are spaced so.
pub fn rounds_are_joined()
    ensures new { (F : List (List Literal)) (J : List Entry) (x : RoundStart) (K : List Entry) → list_any begins_round K ≡ false
        → EachAfter (IsNewInRound F) [] J → EachAfter (IsNew (opening_by F (J ++ Round x ∷ []) (Some x))) [] K → EachAfter (IsNewInRound F) [] (J ++ Round x ∷ K) }
    ensures spaced { (J : List Entry) (x : RoundStart) (K : List Entry) → list_any begins_round K ≡ false
        → EachAfter IsSpacedInRound [] J → EachAfter IsSpaced [] K → EachAfter IsSpacedInRound [] (J ++ Round x ∷ K) }
{}
