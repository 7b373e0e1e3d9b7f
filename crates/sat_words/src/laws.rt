ghost use Rattle.std.specs.Prelude.{◌≡◌, ◌==◌, ◌↔◌, Bool, List, true, IsTrue};
ghost use Rattle.std.specs.Cmp.Lexicographic.{pointwise};
ghost use Rattle.std.specs.Ordering.{on};
ghost use Rattle.sat_words.specs.Literal.{Literal, code_of};
ghost use Rattle.sat_words.specs.Clause.{has, same_set, clause_of, InOrder};
ghost use Rattle.sat_words.specs.Truth.{clause_true};

/// The clause of a list of literals has the literals of the list, is in order, and is the list itself if that is
/// in order already. Lists with the same literals have one clause.
pub fn a_clause_is_a_set()
    ensures members { (c : List Literal) (l : Literal) → has (clause_of c) l ≡ has c l }
    ensures same { (c : List Literal) → same_set c (clause_of c) ≡ true }
    ensures ordered { (c : List Literal) → InOrder (clause_of c) }
    ensures itself { (c : List Literal) → InOrder c → clause_of c ≡ c }
    ensures one { (c d : List Literal) → ((l : Literal) → has c l ≡ has d l) → clause_of c ≡ clause_of d }
{}

/// Under an assignment, two lists with the same literals are both true or both false.
pub fn truth_is_of_the_set()
    ensures { (a : List Bool) (c d : List Literal) → ((l : Literal) → has c l ≡ has d l) → clause_true a c ≡ clause_true a d }
{}

/// Two lists of literals are equal in the program exactly if they are one list.
pub fn equal_lists_are_one()
    ensures { (c d : List Literal) → IsTrue (pointwise (on code_of ◌==◌) c d) ↔ (c ≡ d) }
{}
