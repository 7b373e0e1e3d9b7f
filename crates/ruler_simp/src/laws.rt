//! What follows of the promises; the calls compute nothing.
ghost use Rattle.std.specs.Prelude.{◌≡◌, List, ◌++◌, Ok, All};
ghost use Rattle.sat_words.specs.Literal.{Literal, IsOn};
ghost use Rattle.sat_words.specs.FormulaData.{FormulaData};
ghost use Rattle.rup_model.specs.declared.journal.Entry.{Entry};
ghost use Rattle.drat_text.specs.LineState.{LineState};
ghost use Rattle.simp_base.specs.WorkState.{WorkState, unit_cells};
ghost use Rattle.simp_base.specs.Resumed.{Resumes};
ghost use Rattle.ruler_simp.specs.declared.ruling.Simplified.{Simplified};
ghost use Rattle.ruler_simp.specs.declared.ruling.Outcome.TheVariants.{Simplified as LeftOver};
ghost use Rattle.ruler_simp.specs.declared.rounds.Schedule.{Schedule};
ghost use Rattle.ruler_simp.specs.Ruled.{Ruled};
ghost use Rattle.ruler_simp.specs.Again.{ResumesAs, RuledAgain};

/// The ruler can go on with what it left of a formula, after the journal that it left: with the start clauses, and after them the
/// clauses of the units.
pub fn what_is_left_resumes()
    ensures first { (F : FormulaData) (schedule : Schedule) (old new : LineState) (s : Simplified) → All (All (IsOn F.vars)) F.clauses
        → (was : Ruled F schedule old new (Ok (LeftOver s))) → Resumes F.clauses s.vars (s.start.items ++ unit_cells s.units.items) s.units.items s.stack new was.journal }
    ensures again { (F : List (List Literal)) (schedule : Schedule) (start : WorkState) (new : LineState) (s : Simplified) (was : RuledAgain F schedule start new (Ok (LeftOver s)))
        (J : List Entry) → ResumesAs F start J → Resumes F s.vars (s.start.items ++ unit_cells s.units.items) s.units.items s.stack new (J ++ was.entries) }
{}
