//! What reading a text promises of the text alone.
ghost use Rattle.std.specs.Prelude.{◌≡◌, ℕ, List};
ghost use Rattle.sat_words.specs.FormulaData.{FormulaData};
ghost use Rattle.dimacs_read.specs.declared.stop.Code.{Code};
ghost use Rattle.dimacs_read.specs.Input.{Reads, Bad};

/// A text that spells a formula has no bad place.
pub fn read_or_bad()
    ensures { (text : List ℕ) (formula : FormulaData) (code : Code) (line : ℕ) → Reads text formula → Bad text code line → ⊥ }
{}

/// A text spells one formula at most.
pub fn reads_one_formula()
    ensures { (text : List ℕ) (f g : FormulaData) → Reads text f → Reads text g → f ≡ g }
{}

/// A text has one first bad place at most.
pub fn has_one_first_bad_place()
    ensures { (text : List ℕ) (code other : Code) (line second : ℕ) → Bad text code line → Bad text other second → (code ≡ other) × (line ≡ second) }
{}
