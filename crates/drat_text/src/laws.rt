// What holds of the bytes of lines; the calls compute nothing.
ghost use Rattle.std.specs.Prelude.{◌≡◌, List, ℕ, ◌∷◌, ◌++◌, [], map, false};
ghost use Rattle.sat_words.specs.Formats.{has_hints};
ghost use Rattle.sat_words.specs.declared.line.Line.{Line};
ghost use Rattle.sat_words.specs.declared.line.ProofFormat.{ProofFormat};
ghost use Rattle.rup_model.specs.NumberedLines.{NumberedLine, line_of};
ghost use Rattle.drat_text.specs.Text.{CanBeSpelled, IsSpelled};
ghost use Rattle.drat_text.specs.Spelling.{spelling, proof_bytes};
ghost use Rattle.drat_text.specs.Front.{IsCutText};
ghost use Rattle.drat_text.specs.Read.{IsTextOf, IsBadLine};

/// Two lists of lines that have the same bytes in one format of DRAT are the same, but for numbers and hints.
pub fn bytes_determine_lines()
    ensures { (format : ProofFormat) (K M : List NumberedLine) → has_hints format ≡ false → CanBeSpelled (map line_of K) → CanBeSpelled (map line_of M)
        → proof_bytes format K ≡ proof_bytes format M → map line_of K ≡ map line_of M }
{}

/// In DRAT each line shows where it ends: no line's spelling is a front of another line's.
pub fn no_spelling_begins_another()
    ensures { (format : ProofFormat) (a b : NumberedLine) (rest : List ℕ) → has_hints format ≡ false → IsSpelled (line_of a) → IsSpelled (line_of b)
        → spelling format a ++ rest ≡ spelling format b → line_of a ≡ line_of b }
{}

/// What is a front of the bytes of one line or more is the bytes of some first lines and a front of the next line's.
pub fn a_front_ends_in_a_line()
    ensures { (format : ProofFormat) (L : List NumberedLine) (x : NumberedLine) (front rest : List ℕ) → front ++ rest ≡ proof_bytes format (L ++ x ∷ []) → IsCutText format (L ++ x ∷ []) front }
{}

/// Bytes that are the text of lines have no bad line, and others have at most one that is the first bad.
pub fn one_line_is_the_first_bad()
    ensures text { (L : List Line) (bytes : List ℕ) (number : ℕ) → IsTextOf L bytes → IsBadLine bytes number → ⊥ }
    ensures one { (bytes : List ℕ) (m n : ℕ) → IsBadLine bytes m → IsBadLine bytes n → m ≡ n }
{}
