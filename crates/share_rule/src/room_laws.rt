//! What it means that there was no room.
ghost use Rattle.std.specs.Prelude.{◌≡◌, ℕ, ◌<◌, true, List, ◌++◌, length, Some};
ghost use mathlib.Core.Option.{some};
ghost use lib.ListN.{get_elem?};
ghost use Rattle.sat_words.specs.Literal.{Literal};
ghost use Rattle.clause_cell.specs.Packing.{words_for};
ghost use Rattle.clause_cell.specs.Free.{largest};
ghost use Rattle.rup_model.specs.declared.journal.Entry.{Entry};
ghost use Rattle.rup_model.specs.declared.journal.Kind.{Kind};
ghost use Rattle.rup_model.specs.Opening.{IsLong, program_opening};
ghost use Rattle.share_core.specs.declared.part.CoreOpening.{CoreOpening};
ghost use Rattle.share_core.specs.Learning.{follows, MayAddClause};
ghost use Rattle.share_rule.specs.declared.Layout.{Layout};
ghost use Rattle.share_rule.specs.declared.note.Note.{Note};
ghost use Rattle.share_rule.specs.declared.view.Refusal.TheVariants.{NoHole};
ghost use Rattle.share_rule.specs.declared.view.RingPart.{RingPart};
ghost use Rattle.share_rule.specs.declared.view.View.{View};
ghost use Rattle.share_rule.specs.FirstWords.{begun_with, starts_of, IsNoHole};
ghost use Rattle.share_rule.specs.Layout.{InVars};
ghost use Rattle.share_rule.specs.Room.{room};
ghost use Rattle.share_rule.specs.Seen.{Seen};
ghost use Rattle.share_rule.specs.Shown.{ring_of};
ghost use Rattle.share_rule.specs.Tight.{IsTight, numbered};
ghost use Rattle.share_rule.specs.Turns.{IsWriting, MayWrite, written_of};
ghost use Rattle.share_rule.specs.Views.{only};

/// If room was wanted after a journal, it was in every longer one, and more was needed than there was.
pub fn longer_journals_stay_tight()
    ensures more { (l : Layout) (o : CoreOpening) (J K : List Entry) (need most : ℕ) → IsTight l o J need most → IsTight l o (J ++ K) need most }
    ensures short { (l : Layout) (o : CoreOpening) (J : List Entry) (need most : ℕ) → IsTight l o J need most → most < need }
{}

/// If a turn finds no hole for a clause that it may add after what it wrote, room is wanted there.
pub fn a_turn_without_a_hole_is_tight()
    ensures { (v : View) (ns : List Note) (kind : Kind) (lits : List Literal) (hints : List ℕ) (need most : ℕ) → Seen v → IsWriting v → MayWrite v ns
        → MayAddClause v.opening (written_of v ns).journal (written_of v ns).part (ring_of (only v)) kind lits → IsLong lits → follows v.opening.hinted (written_of v ns).part lits hints ≡ true → InVars v.layout lits
        → need ≡ words_for (length lits) → most ≡ largest (room v.layout v.opening (written_of v ns).journal).holes → most < need
        → IsTight v.layout v.opening (written_of v ns).journal need most }
{}

/// What a ring's part notes as a want of room was one, after a front of the journal of each core that its pass sees.
pub fn a_noted_want_of_room_is_one()
    ensures { (v : View) (s : Seen v) (i : ℕ) (p : RingPart) (need most : ℕ) → get_elem? v.parts i ≡ some p → p.refused ≡ Some (NoHole need most) → IsTight v.layout s.core.opening s.core.journal need most }
{}

/// The room for start clauses depends on them alone: if they are the program's, one of them finds no hole if one of those does.
pub fn the_room_is_of_the_starts()
    ensures { (F : List (List Literal)) (l : Layout) (J0 : List Entry) (ss : List (ℕ × List Literal)) (need most : ℕ)
        → starts_of ss ≡ (program_opening F J0).starts → IsNoHole l ss need most → IsNoHole l (numbered (program_opening F J0).starts) need most }
{}
