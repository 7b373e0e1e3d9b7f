// Which clauses take part.
ghost use Rattle.std.specs.Prelude.{◌≡◌};
ghost use Rattle.sat_words.specs.Clause.{InOrder};
ghost use Rattle.simp_base.specs.Parts.{takes_part};

use crate::tautology::is_tautology;
use sat_words::Clause;

/// Whether the clause has two literals or more, and no literal beside its negation: simplifiers pass over all others.
pub fn takes_part(clause: &Clause) -> bool
    ensures is { result ≡ takes_part clause.now }
    ensures ordered { InOrder clause.now }
{
    clause.lits().len() >= 2 && !is_tautology(clause)
}
