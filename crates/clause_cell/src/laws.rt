//! What the definitions come to.
ghost use Rattle.std.specs.Prelude.{◌≡◌, ◌≢◌, ℕ, ◌+◌, ◌/◌, ◌%◌, ◌^◌, ◌<◌, ◌≤◌, true, false, ◌||◌, List, length, All, Some, None};
ghost use Rattle.sat_words.specs.Literal.{Literal, code_of};
ghost use Rattle.clause_cell.specs.declared.holes.Hole.{Hole};
ghost use Rattle.clause_cell.specs.Packing.{words_for, pair_of, half, code_at, lit_word};
ghost use Rattle.clause_cell.specs.Free.{is_within, is_free, is_apart, is_clear, largest, first_fit, without_fit, with_range};

/// The halves of a word are read back.
pub fn words_are_read_back()
    ensures low { (a b : ℕ) → a < 2 ^ 32 → pair_of a b % 2 ^ 32 ≡ a }
    ensures high { (a b : ℕ) → a < 2 ^ 32 → pair_of a b / 2 ^ 32 ≡ b }
{}

/// Each literal of a clause is read back from a word of its own cell.
pub fn literals_are_read_back()
    ensures code { (lits : List Literal) (i : ℕ) → All (λ l. code_of l < 2 ^ 32) lits → half (lit_word lits (i / 2)) i ≡ code_at lits i }
    ensures inside { (lits : List Literal) (i : ℕ) → i < length lits → 3 + i / 2 < words_for (length lits) }
{}

/// Words that are taken were free and are so no longer, words that are given back were not and are, and no other word
/// changes.
pub fn free_words_are_exact()
    ensures free { (hs : List Hole) (need a w : ℕ) → is_apart 0 hs ≡ true → 0 < need → first_fit need hs ≡ Some a → is_within a need w ≡ true → is_free hs w ≡ true }
    ensures taken { (hs : List Hole) (need a w : ℕ) → is_apart 0 hs ≡ true → 0 < need → first_fit need hs ≡ Some a → is_free hs w ≡ (is_within a need w || is_free (without_fit need hs) w) }
    ensures busy { (hs : List Hole) (need a w : ℕ) → is_apart 0 hs ≡ true → 0 < need → first_fit need hs ≡ Some a → is_within a need w ≡ true → is_free (without_fit need hs) w ≡ false }
    ensures clear { (hs : List Hole) (a n w : ℕ) → is_clear a n hs ≡ true → is_within a n w ≡ true → is_free hs w ≡ false }
    ensures given { (hs : List Hole) (a n w : ℕ) → is_apart 0 hs ≡ true → 0 < n → is_clear a n hs ≡ true → is_free (with_range a n hs) w ≡ (is_within a n w || is_free hs w) }
{}

/// Holes stay in order, and none touches another.
pub fn holes_never_touch()
    ensures taken { (hs : List Hole) (need : ℕ) → is_apart 0 hs ≡ true → is_apart 0 (without_fit need hs) ≡ true }
    ensures given { (hs : List Hole) (a n : ℕ) → is_apart 0 hs ≡ true → 0 < n → a + n ≤ 2 ^ 63 → is_clear a n hs ≡ true → is_apart 0 (with_range a n hs) ≡ true }
{}

/// No hole is long enough exactly if the longest is shorter than what is needed.
pub fn none_fits_where_the_longest_is_shorter()
    ensures none { (hs : List Hole) (need : ℕ) → largest hs < need → first_fit need hs ≡ None }
    ensures shorter { (hs : List Hole) (need : ℕ) → 0 < need → first_fit need hs ≡ None → largest hs < need }
{}

/// Holes that leave the same words free are the same.
pub fn free_words_tell_the_holes()
    ensures { (hs ks : List Hole) → is_apart 0 hs ≡ true → is_apart 0 ks ≡ true → ((w : ℕ) → is_free hs w ≡ is_free ks w) → hs ≡ ks }
{}
