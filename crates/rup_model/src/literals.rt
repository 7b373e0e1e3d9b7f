ghost use Rattle.std.specs.Prelude.{◌≡◌, List, map};
ghost use Rattle.sat_words.specs.Literal.{Literal};

use sat_words::{Clause, Lit, Lits};

/// A list of literals that stands for a clause, in any order and with repeats. The checks read clauses through it, so
/// that none is rebuilt for them.
pub trait Literals {
    ghost lits: { Self → List Literal };

    // the literals of each
    ghost lists: { List Self → List (List Literal) };

    /// The literals, in the order that is kept.
    fn lits(&self) -> &[Lit]
        ensures { result.now ≡ lits self.now };

    ghost each: { (cs : List Self) → lists cs ≡ map lits cs };
}

impl Literals for Clause {
    ghost use Rattle.std.proofs.Common.{sym};
    ghost use Rattle.std.proofs.lemmas.List.{map-id};

    ghost lits = { λ c. c };

    ghost lists = { λ cs. cs };

    ghost each = { λ cs. sym (map-id cs) };

    fn lits(&self) -> &[Lit] {
        Clause::lits(self)
    }
}

impl Literals for Lits {
    ghost use Rattle.std.proofs.Common.{sym};
    ghost use Rattle.std.proofs.lemmas.List.{map-id};

    ghost lits = { λ c. c };

    ghost lists = { λ cs. cs };

    ghost each = { λ cs. sym (map-id cs) };

    fn lits(&self) -> &[Lit] {
        self.as_slice()
    }
}
