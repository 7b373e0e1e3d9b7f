// Whether a clause is a tautology: it holds a literal and its negation, which stand side by side since a clause is in
// order.
ghost use Rattle.std.specs.Prelude.{◌≡◌, ◌<◌};
ghost use Rattle.sat_words.specs.Clause.{has_opposites};

use sat_words::Clause;

/// Whether the clause holds a literal and its negation. One pass over the literals.
pub fn is_tautology(clause: &Clause) -> bool
    ensures { result ≡ has_opposites clause.now }
{
    let lits = clause.lits();
    for i in 1..lits.len() {
        if lits[i] == lits[i - 1].not() {
            return true;
        }
    }
    false
}
