// What holds of the forms of input; the calls compute nothing.
ghost use Rattle.std.specs.Prelude.{List, ℕ};
ghost use Rattle.sat_words.specs.FormulaData.{FormulaData};
ghost use Rattle.dimacs_read.specs.Input.{Reads};
ghost use Rattle.top_call.specs.Plain.{Plain};

/// The plain form is a case of DIMACS CNF: bytes that spell a formula in it are read as this formula.
pub fn the_plain_form_is_read()
    ensures { (bytes : List ℕ) (formula : FormulaData) → Plain bytes formula → Reads bytes formula }
{}
